// A season's bytes cut into sheets, whatever pieces they come in: the phase that the bytes lead to, and what they bring to its end.
#![tactic(auto)]

ghost use Rattle.std.specs.Prelude.{◌≡◌, List, true, ◌-◌, ◌≤◌, ◌<◌, ℕ, min, length};
ghost use Rattle.std.proofs.Math.Seq.{paste};
ghost use Rattle.cutting.specs.Cutting.{opened, takes_byte, wanted_in};
ghost use Rattle.cutting.specs.Pieces.{CutsTo, CutsLength, CutsBody, CutsPassing};

/// The bytes of a length.
const LENGTH_BYTES: usize = 4;

/// The words of the longest sheet that is planned.
const LONGEST_SHEET: u32 = 16000;

/// The bytes of the longest sheet that is planned.
pub const SHEET_BYTES: usize = 64000;

/// How far the reading has come.
#[derive(Clone, Copy, Debug, PartialEq, Eq)]
pub enum Phase {
    /// So many bytes of a length.
    Length(usize),
    /// So many bytes of a sheet, and how many it has in all.
    Body(usize, usize),
    /// So many bytes are still to pass over.
    Passing(u64),
    /// No byte is wanted any more.
    Over,
}

/// What bytes brought to its end.
#[derive(Clone, Copy, Debug, PartialEq, Eq)]
pub enum Found {
    /// Nothing came to its end.
    Nothing,
    /// A length.
    Length,
    /// A sheet of so many bytes.
    Sheet(usize),
    /// A sheet that was passed over.
    PassedOver,
}

/// What taking bytes came to.
#[derive(Clone, Copy, Debug, PartialEq, Eq)]
pub struct Taken {
    /// The phase behind them.
    pub phase: Phase,
    /// What they brought to its end.
    pub found: Found,
    /// How many they are.
    pub count: usize,
}

/// Whether a phase takes a byte, with a buffer of such a length.
pub fn takes(phase: Phase, room: usize) -> bool
    ensures { result ≡ takes_byte phase room }
{
    if room < SHEET_BYTES {
        return false;
    }
    match phase {
        Phase::Length(at) => at < LENGTH_BYTES,
        Phase::Body(at, end) => at < end && end <= SHEET_BYTES,
        Phase::Passing(left) => 0 < left,
        Phase::Over => false,
    }
}

/// How many bytes there are to the end of the phase, at most so many: reading no more, nothing behind the last sheet is read.
#[tactic(auto, unfolding(crate::specs::Cutting::wanted_in))]
pub fn wanted(phase: Phase, most: usize) -> usize
    ensures { result ≡ min (wanted_in phase) most }
{
    match phase {
        Phase::Length(at) => LENGTH_BYTES.saturating_sub(at).min(most),
        Phase::Body(at, end) => end.saturating_sub(at).min(most),
        Phase::Passing(left) => left.min(most as u64) as usize,
        Phase::Over => 0,
    }
}

// Bytes put into a buffer from an index on, as many as there are and have a place before the end; their number.

fn fill(body: &mut [u8], at: usize, end: usize, bytes: &[u8]) -> usize
    requires { (at ≤ end) × (end ≤ length body.old) }
    ensures { (result ≡ min (end - at) (length bytes.now)) × (body.new ≡ paste body.old at bytes.now result) }
{
    let n = (end - at).min(bytes.len());
    body[at..at + n].copy_from_slice(&bytes[..n]);
    n
}

/// What a length of so many words opens, with how many bytes were taken to its end.
#[tactic(auto, using(crate::proofs::Phases::opened_long))]
fn open(words: u32, count: usize) -> Taken
    ensures { ((body : List ℕ) → record { phase = result.phase; body = body; found = result.found } ≡ opened words body) × (result.count ≡ count) }
{
    if words == 0 {
        return Taken {
            phase: Phase::Length(0),
            found: Found::Sheet(0),
            count,
        };
    }
    if LONGEST_SHEET < words {
        return Taken {
            phase: Phase::Passing(4 * words as u64),
            found: Found::Length,
            count,
        };
    }
    Taken {
        phase: Phase::Body(0, 4 * words as usize),
        found: Found::Length,
        count,
    }
}

/// Bytes of a length.
fn cut_length(at: usize, body: &mut [u8], bytes: &[u8]) -> Taken
    requires { (at < 4) × (4 ≤ length body.old) × (1 ≤ length bytes.now) }
    ensures { CutsLength at body.old bytes.now result body.new }
{
    let n = fill(body, at, LENGTH_BYTES, bytes);
    if at + n < LENGTH_BYTES {
        return Taken {
            phase: Phase::Length(at + n),
            found: Found::Nothing,
            count: n,
        };
    }
    open(littleendian::word_at(body, 0), n)
}

/// Bytes of a sheet.
fn cut_body(at: usize, end: usize, body: &mut [u8], bytes: &[u8]) -> Taken
    requires { (at < end) × (end ≤ length body.old) × (1 ≤ length bytes.now) }
    ensures { CutsBody at end body.old bytes.now result body.new }
{
    let n = fill(body, at, end, bytes);
    if at + n < end {
        return Taken {
            phase: Phase::Body(at + n, end),
            found: Found::Nothing,
            count: n,
        };
    }
    Taken {
        phase: Phase::Length(0),
        found: Found::Sheet(end),
        count: n,
    }
}

/// Bytes that are passed over: none of them is looked at.
fn cut_passing(left: u64, bytes: &[u8]) -> Taken
    requires { (1 ≤ left) × (1 ≤ length bytes.now) }
    ensures { CutsPassing left bytes.now result }
{
    let n = left.min(bytes.len() as u64);
    if n < left {
        return Taken {
            phase: Phase::Passing(left - n),
            found: Found::Nothing,
            count: n as usize,
        };
    }
    Taken {
        phase: Phase::Length(0),
        found: Found::PassedOver,
        count: n as usize,
    }
}

/// Takes bytes up to the first that brings something to its end, or all of them.
pub fn cut(phase: Phase, body: &mut [u8], bytes: &[u8]) -> Taken
    requires { (takes_byte phase (length body.old) ≡ true) × (1 ≤ length bytes.now) }
    ensures { CutsTo phase body.old bytes.now result body.new }
{
    match phase {
        Phase::Length(at) => cut_length(at, body, bytes),
        Phase::Body(at, end) => cut_body(at, end, body, bytes),
        Phase::Passing(left) => cut_passing(left, bytes),
        Phase::Over => Taken {
            phase: Phase::Over,
            found: Found::Nothing,
            count: bytes.len(),
        },
    }
}
