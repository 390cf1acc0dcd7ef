// Rows in a table that the caller lends: reading and finding. Rows start at `base`; `count` of them are there.
#![tactic(auto)]

ghost use Rattle.std.specs.Prelude.{◌≡◌, [], ◌∷◌, ◌+◌, ◌*◌, ◌<◌, ◌≤◌, length, get_or, drop};
ghost use Rattle.clause.specs.Packed.{FitsBlocks};
ghost use Rattle.rows.specs.Raw.{row_width, max_weight, raw_at, raws_in, weight_in, row_weighs, raw_row, clause_in, find_from, find_spaced};

use clause::Clause;

/// Words to a row, and the greatest weight.
pub const WIDTH: usize = 6;

pub const MAX_WEIGHT: u64 = 72057594037927935;

/// A weight's low word has the 28 bits below this, its high word the 28 from it on.
pub const HIGH_UNIT: u64 = 268435456;

/// The clause of the row whose words start at this place.
pub fn clause_at(t: &[u32], at: usize) -> Clause
    requires { at + 4 ≤ length t.now }
    ensures { (result ≡ clause_in (raw_at t.now at)) × FitsBlocks result }
{
    Clause {
        a: t[at] % 16777216,
        b: t[at + 1] % 16777216,
        c: t[at + 2] % 16777216,
        d: t[at + 3] % 16777216,
    }
}

/// The clause of row k.
pub fn clause_of(t: &[u32], base: usize, k: usize) -> Clause
    requires { base + row_width * k + row_width ≤ length t.now }
    ensures { (result ≡ clause_in (raw_at t.now (base + row_width * k))) × FitsBlocks result }
{
    clause_at(t, base + WIDTH * k)
}

/// The weight of row k.
pub fn weight_of(t: &[u32], base: usize, k: usize) -> u64
    requires { base + row_width * k + row_width ≤ length t.now }
    ensures { (result ≡ weight_in (raw_at t.now (base + row_width * k))) × (result ≤ max_weight) }
{
    let at = base + WIDTH * k;
    let low = words::payload(t[at + 4]) as u64;
    let high = words::payload(t[at + 5]) as u64;
    low + high * HIGH_UNIT
}

/// Behind the sign words of the row at this place stands a weight of at least 1.
pub fn weight_there(t: &[u32], at: usize) -> bool
    requires { at + row_width ≤ length t.now }
    ensures { result ≡ row_weighs (drop at t.now) }
{
    let low = t[at + 4];
    let high = t[at + 5];
    if words::kind(low) != 6 {
        return false;
    }
    if words::kind(high) != 12 {
        return false;
    }
    if words::payload(low) + words::payload(high) == 0 {
        return false;
    }
    true
}

/// The place of a sign word that few rows share: the first with a literal.
fn telling(x: Clause) -> usize
    ensures { result < 4 }
{
    if x.a != 0 {
        return 0;
    }
    if x.b != 0 {
        return 1;
    }
    if x.c != 0 {
        return 2;
    }
    3
}

/// The word at place k of four.
fn word_at(k: usize, a: u32, b: u32, c: u32, d: u32) -> u32
    requires { k < 4 }
    ensures { result ≡ get_or (a ∷ b ∷ c ∷ d ∷ []) k 0 }
{
    if k == 0 {
        return a;
    }
    if k == 1 {
        return b;
    }
    if k == 2 {
        return c;
    }
    d
}

/// The first of `count` rows with this clause's sign words, where the rows start `width` words behind one another. One of the four words is compared
/// first, which rules out nearly every row.
pub fn find_spaced(t: &[u32], base: usize, count: usize, width: usize, x: Clause) -> Option<usize>
    requires { (base + width * count ≤ length t.now) × (4 ≤ width) × FitsBlocks x }
    ensures { result ≡ find_spaced width (raw_row x 0) 0 count (drop base t.now) }
{
    let a = words::signs(0, x.a);
    let b = words::signs(1, x.b);
    let c = words::signs(2, x.c);
    let d = words::signs(3, x.d);
    let tell = telling(x);
    let word = word_at(tell, a, b, c, d);
    for k in 0..count {
        let at = base + width * k;
        if t[at + tell] == word
            && t[at] == a
            && t[at + 1] == b
            && t[at + 2] == c
            && t[at + 3] == d
        {
            return Some(k);
        }
    }
    None
}

/// The first row with this clause's sign words, of rows of six words.
#[tactic(auto, using(crate::proofs::Searching::spaced_by_six))]
pub fn find(t: &[u32], base: usize, count: usize, x: Clause) -> Option<usize>
    requires { (base + row_width * count ≤ length t.now) × FitsBlocks x }
    ensures { result ≡ find_from (raw_row x 0) 0 (raws_in t.now base count) }
{
    find_spaced(t, base, count, WIDTH, x)
}
