// Bytes read as little-endian words, four bytes each, and words written so.
#![tactic(auto)]

ghost use Rattle.std.specs.Prelude.{◌≡◌, [], ◌∷◌, ◌++◌, ◌+◌, ◌*◌, ◌/◌, ◌≤◌, length, take, drop};
ghost use Rattle.std.proofs.lemmas.List.Edits.{sets};
ghost use Rattle.littleendian.specs.Words.{words_in, word_at, bytes_of};

/// The little-endian word whose first byte stands at an index.
pub fn word_at(bytes: &[u8], at: usize) -> u32
    requires { at + 4 ≤ length bytes.now }
    ensures { result ≡ word_at bytes.now at }
{
    u32::from_le_bytes([bytes[at], bytes[at + 1], bytes[at + 2], bytes[at + 3]])
}

/// Reads the words of the bytes into the front of a buffer that they fit into, whose rest stays; their number. Up to three bytes behind the last
/// whole word are left out.
pub fn read_words(bytes: &[u8], words: &mut [u32]) -> usize
    requires { length bytes.now / 4 ≤ length words.old }
    ensures { (take result words.new ≡ words_in bytes.now) × (result ≡ length bytes.now / 4) × (drop result words.new ≡ drop result words.old) }
{
    let n = bytes.len() / 4;
    for i in 0..n {
        words[i] = word_at(bytes, 4 * i);
    }
    n
}

/// The four bytes of a word from an index on.
#[tactic(auto, using(crate::proofs::Writing::word_stored_as))]
fn write_word(bytes: &mut [u8], at: usize, w: u32)
    requires { at + 4 ≤ length bytes.old }
    ensures { bytes.new ≡ sets bytes.old at (bytes_of (w ∷ [])) }
{
    bytes[at..at + 4].copy_from_slice(&w.to_le_bytes());
}

/// Writes the bytes of the words to the front of a buffer that they fit into, whose rest stays.
pub fn write_words(words: &[u32], bytes: &mut [u8])
    requires { 4 * length words.now ≤ length bytes.old }
    ensures { bytes.new ≡ bytes_of words.now ++ drop (4 * length words.now) bytes.old }
{
    for i in 0..words.len() {
        write_word(bytes, 4 * i, words[i]);
    }
}
