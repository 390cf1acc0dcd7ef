// Rows written to a table that the caller lends: behind the last, added, reweighed, removed. Rows start at `base`; `count` of them are there.
#![tactic(auto)]

ghost use Rattle.std.specs.Prelude.{◌≡◌, [], ◌∷◌, ◌++◌, ◌+◌, ◌*◌, ◌<◌, ◌≤◌, length, take, drop, replicate};
ghost use Rattle.clause.specs.Packed.{signs_of, FitsBlocks};
ghost use Rattle.rows.specs.Form.{raws_from_in, LaidIn, LeftIn};
ghost use Rattle.rows.specs.Raw.{row_width, max_weight, raw_words, raw_at, raws_in, Laid, Left, weighing, raw_row, reweighed, without};
ghost use Rattle.storing.specs.Adding.{added, Addable};

use clause::Clause;
use rows::{HIGH_UNIT, WIDTH};
pub use table::forms::write_signs;
use table::forms::{RowForm, Six};

/// The weight of the row whose words start at this place, behind its sign words.
fn write_weight(t: &mut [u32], at: usize, weight: u64)
    requires { (at + row_width ≤ length t.old) × (weight ≤ max_weight) }
    ensures { t.new ≡ take at t.old ++ (raw_words (weighing (raw_at t.old at) weight) ++ drop (at + row_width) t.old) }
{
    t[at + 4] = words::weight((weight % HIGH_UNIT) as u32);
    t[at + 5] = words::high((weight / HIGH_UNIT) as u32);
}

/// A new row of any form after the last one: the part of the table that starts at its place is lent on to the form's row writer.
pub fn append_in<F: RowForm>(t: &mut [u32], base: usize, count: usize, x: Clause, weight: u64)
    requires { LaidIn F.form.rows t.old base (raws_from_in F.form.rows count (drop base t.old)) × (base + F.form.rows.width * count + F.form.rows.width ≤ length t.old) × FitsBlocks x × (weight ≤ F.form.limit) }
    ensures { LeftIn F.form.rows t.old base t.new (raws_from_in F.form.rows count (drop base t.old) ++ (F.form.raw_of (record { signs = signs_of x; weight = weight }) ∷ [])) }
{
    let at = base + F::WIDTH * count;
    F::write(&mut t[at..], x, weight);
}

/// A new row of six words after the last one.
pub fn append(t: &mut [u32], base: usize, count: usize, x: Clause, weight: u64)
    requires { Laid t.old base (raws_in t.old base count) × (base + row_width * count + row_width ≤ length t.old) × FitsBlocks x × (weight ≤ max_weight) }
    ensures { Left t.old base t.new (raws_in t.old base count ++ (raw_row x weight ∷ [])) }
{
    append_in::<Six>(t, base, count, x, weight);
}

/// Another weight for row k.
pub fn reweigh(t: &mut [u32], base: usize, count: usize, k: usize, weight: u64)
    requires { Laid t.old base (raws_in t.old base count) × (base + row_width * count ≤ length t.old) × (k < count) × (weight ≤ max_weight) }
    ensures { Left t.old base t.new (reweighed (raws_in t.old base count) k weight) }
{
    let at = base + WIDTH * k;
    write_weight(t, at, weight);
}

/// A clause added to the rows: its weight goes to the row with its signs, else to a new last row; weight 0 adds nothing. Answers the number of rows.
pub fn add(t: &mut [u32], base: usize, count: usize, x: Clause, weight: u64) -> usize
    requires { Addable t.old base count x weight }
    ensures { let rows = added (raws_in t.old base count) x weight in Left t.old base t.new rows × (result ≡ length rows) }
{
    if weight == 0 {
        return count;
    }
    let found = rows::find(t, base, count, x);
    let Some(k) = found else {
        append(t, base, count, x, weight);
        return count + 1;
    };
    let sum = rows::weight_of(t, base, k) + weight;
    reweigh(t, base, count, k, sum);
    count
}

/// The row behind the one at this place moved down onto it.
fn move_down(t: &mut [u32], at: usize)
    requires { at + row_width + row_width ≤ length t.old }
    ensures { t.new ≡ take at t.old ++ (take row_width (drop (at + row_width) t.old) ++ drop (at + row_width) t.old) }
{
    let mut i = 0;
    while i < WIDTH {
        t[at + i] = t[at + WIDTH + i];
        i += 1;
    }
}

/// The words of the row at this place cleared.
fn clear(t: &mut [u32], at: usize)
    requires { at + row_width ≤ length t.old }
    ensures { t.new ≡ take at t.old ++ (replicate row_width 0 ++ drop (at + row_width) t.old) }
{
    let mut i = 0;
    while i < WIDTH {
        t[at + i] = 0;
        i += 1;
    }
}

/// Row k taken out: the rows behind it close up, and the words of the last place are cleared.
pub fn remove(t: &mut [u32], base: usize, count: usize, k: usize)
    requires { Laid t.old base (raws_in t.old base count) × (base + row_width * count ≤ length t.old) × (k < count) }
    ensures { Left t.old base t.new (without (raws_in t.old base count) k) }
{
    let mut j = k + 1;
    let mut at = base + WIDTH * k;
    while j < count {
        move_down(t, at);
        at += WIDTH;
        j += 1;
    }
    clear(t, at);
}
