// A reader over a caller's words, handed on from one part of a reading to the next.
#![tactic(auto)]

ghost use Rattle.std.specs.Prelude.{◌≡◌, length};
ghost use Rattle.std.specs.Iterator.{item_count};
ghost use Rattle.reader.specs.Left.{words_left, Within, GivesWord};

/// The caller's words and how far they are read: an iterator over those that are left, which is handed on by `&mut` from one
/// part of a reading to the next.
#[derive(Clone, Copy)]
pub struct Reader<'a> {
    pub words: &'a [u32],
    pub at: usize,
}

impl<'a> Reader<'a> {
    /// A reader of which all words are left.
    pub fn over(words: &'a [u32]) -> Reader<'a>
        ensures left { words_left result ≡ words.now }
        ensures within { Within result }
    {
        Reader { words, at: 0 }
    }

    /// A reader that has come up to an index. Past the end of the words it has none left.
    pub fn come_to(words: &'a [u32], at: usize) -> Reader<'a>
        ensures { (result.words ≡ words.entry) × (result.at ≡ at) }
    {
        Reader { words, at }
    }

    /// How many words are left.
    pub fn left(&self) -> usize
        ensures { result ≡ length (words_left self.now) }
    {
        self.words.len().saturating_sub(self.at)
    }
}

impl<'a> Iterator for Reader<'a> {
    type Item = u32;

    ghost next_gives = { GivesWord };

    ghost remaining = { item_count words_left };

    fn next(&mut self) -> Option<u32> {
        if self.words.len() <= self.at {
            return None;
        }
        let word = self.words[self.at];
        self.at += 1;
        Some(word)
    }
}
