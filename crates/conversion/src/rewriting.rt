//! A table's rows written in another form: its head and sizes, then its rows one after the other, and whether a weight has no place there.

ghost use Rattle.std.specs.Prelude.{◌≡◌, false, [], ◌∷◌, ◌++◌, map, ◌+◌, ◌-◌, ◌*◌, ◌≤◌, length, take, drop, replicate};
ghost use Rattle.wcsp.specs.Row.{heavy};
ghost use Rattle.words.specs.Layout.{count_word};
ghost use Rattle.rows.specs.Form.{LaidIn, LeftIn};
ghost use Rattle.rows.specs.Raw.{row_width, Laid, Left};
ghost use Rattle.table.specs.Raws.{raw_of};
ghost use Rattle.table.specs.Meaning.{rows_from_in, rows_from};
ghost use Rattle.table.specs.Five.{five_width, five_max_weight, five_rows, five_raw_of, five_form};

use table::forms::{Five, RowForm, Six};

/// The head and the sizes of the source, the row count 0, and zeros to the end: the target as a table of no rows.
pub fn start(source: &[u32], target: &mut [u32], n: usize)
    requires { (n + 1 ≤ length source.now) × (n + 2 ≤ length target.old) }
    ensures { target.new ≡ take (n + 1) source.now ++ (count_word 0 ∷ replicate (length target.old - (n + 2)) 0) }
{
    // word by word: `copy_from_slice` would have the archive for C ask for `memcpy`
    for i in 0..n + 1 {
        target[i] = source[i];
    }
    target[n + 1] = words::count(0);
    target[n + 2..].fill(0);
}

/// Some row weighs more than the most that is given.
pub fn too_wide<S: RowForm>(t: &[u32], base: usize, count: usize, most: u64) -> bool
    requires { base + S.form.rows.width * count ≤ length t.now }
    ensures { result ≡ heavy most (rows_from_in S.form count (drop base t.now)) }
{
    for k in 0..count {
        let above = most < S::weight_at(t, base + S::WIDTH * k);
        if above {
            return true;
        }
    }
    false
}

/// The rows of the source in the target's form, in a table that has none yet.
pub fn write_rows<S: RowForm, T: RowForm>(
    source: &[u32],
    target: &mut [u32],
    base: usize,
    count: usize,
)
    requires { (base + S.form.rows.width * count ≤ length source.now) × (base + T.form.rows.width * count ≤ length target.old) × LaidIn T.form.rows target.old base [] × (heavy T.form.limit (rows_from_in S.form count (drop base source.now)) ≡ false) }
    ensures { LeftIn T.form.rows target.old base target.new (map T.form.raw_of (rows_from_in S.form count (drop base source.now))) }
{
    for k in 0..count {
        let at = base + S::WIDTH * k;
        let x = rows::clause_at(source, at);
        storing::append_in::<T>(target, base, k, x, S::weight_at(source, at));
    }
}

/// The five-word rows of the source as six-word rows of a table that has none yet. Every weight of one word has its place in two.
pub fn write_six(source: &[u32], target: &mut [u32], base: usize, count: usize)
    requires { (base + five_width * count ≤ length source.now) × (base + row_width * count ≤ length target.old) × Laid target.old base [] }
    ensures { Left target.old base target.new (map raw_of (rows_from_in five_form count (drop base source.now))) }
{
    write_rows::<Five, Six>(source, target, base, count);
}

/// The six-word rows of the source as five-word rows of a table that has none yet.
pub fn write_five(source: &[u32], target: &mut [u32], base: usize, count: usize)
    requires { (base + row_width * count ≤ length source.now) × (base + five_width * count ≤ length target.old) × LaidIn five_rows target.old base [] × (heavy five_max_weight (rows_from count (drop base source.now)) ≡ false) }
    ensures { LeftIn five_rows target.old base target.new (map five_raw_of (rows_from count (drop base source.now))) }
{
    write_rows::<Six, Five>(source, target, base, count);
}
