//! The forms of rows: six words to a row, which the calls take, and five, last year's. They differ in a row's width and in how its weight stands
//! behind the four sign words.

ghost use Rattle.std.specs.Prelude.{◌≡◌, ◌++◌, ◌≤◌, length, drop};
ghost use Rattle.clause.specs.Packed.{FitsBlocks};
ghost use Rattle.rows.specs.Raw.{raw_row, sign_words_in};

use clause::Clause;

/// A form of rows.
pub trait RowForm {
    ghost use Rattle.std.specs.Prelude.{◌≡◌, ℕ, List, ◌++◌, ◌+◌, ◌≤◌, length, drop};
    ghost use Rattle.clause.specs.Packed.{signs_of, FitsBlocks};
    ghost use Rattle.table.specs.Form.{TableForm};
    ghost use Rattle.table.specs.TableLaws.{TableLaws};
    ghost use Rattle.table.specs.SignLaws.{SignLaws};

    // What specs/ says of the form: its width, its greatest weight, its words, and what they say.
    ghost form: { TableForm };

    /// Words to a row.
    const WIDTH: usize;

    ghost WIDTH: { ℕ };

    /// The greatest weight that a row's words can say.
    const MAX_WEIGHT: u64;

    ghost MAX_WEIGHT: { ℕ };

    /// Behind the sign words of the row at this place stand the words of a weight of at least 1.
    fn weighs(t: &[u32], at: usize) -> bool
        requires { at + form.rows.width ≤ length t.now }
        ensures { result ≡ form.weighs (drop at t.now) };

    /// The weight of the row at this place.
    fn weight_at(t: &[u32], at: usize) -> u64
        requires { at + form.rows.width ≤ length t.now }
        ensures { result ≡ (form.row_of (form.rows.read t.now at)).weight };

    /// A row's words at the front of the part of a table that is lent.
    fn write(part: &mut [u32], x: Clause, weight: u64)
        requires { (form.rows.width ≤ length part.old) × FitsBlocks x × (weight ≤ form.limit) }
        ensures { part.new ≡ form.rows.words (form.raw_of (record { signs = signs_of x; weight = weight })) ++ drop form.rows.width part.old };

    ghost laws: { TableLaws form };

    ghost sign_laws: { SignLaws form };

    ghost width_ok: { WIDTH ≡ form.rows.width };

    ghost limit_ok: { MAX_WEIGHT ≡ form.limit };
}

/// Four sign words, and two words with a weight of up to 56 bits: the form of all calls but one.
pub struct Six;

/// Four sign words, and one word with a weight of up to 28 bits: last year's form.
pub struct Five;

/// A clause's sign words at the front of the part that is lent.
pub fn write_signs(part: &mut [u32], x: Clause)
    requires { (4 ≤ length part.old) × FitsBlocks x }
    ensures { part.new ≡ sign_words_in (raw_row x 0) ++ drop 4 part.old }
{
    part[0] = words::signs(0, x.a);
    part[1] = words::signs(1, x.b);
    part[2] = words::signs(2, x.c);
    part[3] = words::signs(3, x.d);
}

impl RowForm for Six {
    ghost use Rattle.std.specs.Prelude.{refl};
    ghost use Rattle.table.specs.Raws.{standard_form};
    ghost use Rattle.table.specs.SixLaws.{table_laws, six_signs};

    ghost form = { standard_form };

    const WIDTH: usize = rows::WIDTH;

    ghost WIDTH = { 6 };

    const MAX_WEIGHT: u64 = rows::MAX_WEIGHT;

    ghost MAX_WEIGHT = { 72057594037927935 };

    fn weighs(t: &[u32], at: usize) -> bool {
        rows::weight_there(t, at)
    }

    fn weight_at(t: &[u32], at: usize) -> u64 {
        rows::weight_of(t, at, 0)
    }

    fn write(part: &mut [u32], x: Clause, weight: u64) {
        write_signs(part, x);
        part[4] = words::weight((weight % rows::HIGH_UNIT) as u32);
        part[5] = words::high((weight / rows::HIGH_UNIT) as u32);
    }

    ghost laws = { table_laws };

    ghost sign_laws = { six_signs };

    ghost width_ok = { refl };

    ghost limit_ok = { refl };
}

impl RowForm for Five {
    ghost use Rattle.std.specs.Prelude.{refl};
    ghost use Rattle.table.specs.Five.{five_form};
    ghost use Rattle.table.specs.FiveLaws.{word_weight, laws_by, five_signs};

    ghost form = { five_form };

    const WIDTH: usize = 5;

    ghost WIDTH = { 5 };

    const MAX_WEIGHT: u64 = 268435455;

    ghost MAX_WEIGHT = { 268435455 };

    fn weighs(t: &[u32], at: usize) -> bool {
        let word = t[at + 4];
        words::kind(word) == 6 && words::payload(word) != 0
    }

    fn weight_at(t: &[u32], at: usize) -> u64 {
        words::payload(t[at + 4]) as u64
    }

    fn write(part: &mut [u32], x: Clause, weight: u64) {
        write_signs(part, x);
        part[4] = words::weight(weight as u32);
    }

    ghost laws = { laws_by word_weight };

    ghost sign_laws = { five_signs };

    ghost width_ok = { refl };

    ghost limit_ok = { refl };
}
