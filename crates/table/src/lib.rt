// Tables that a caller hands in: valid or not, the shape of a valid one, and its empty row's weight.
#![tactic(auto)]

ghost use Rattle.std.specs.Prelude.{◌≡◌, true, ◌&&◌, List, ◌++◌, ℕ, ◌+◌, ◌-◌, ◌*◌, ◌/◌, ◌<◌, ◌≤◌, min, length, take, drop, replicate, Some, None, ◌==◌};
ghost use Rattle.std.specs.List.{list_all};
ghost use Rattle.wcsp.specs.Sign.{full};
ghost use Rattle.wcsp.specs.Row.{empty_weight};
ghost use Rattle.words.specs.Layout.{unpacked};
ghost use Rattle.clause.specs.Packed.{signs_of, FitsBlocks, FullSigns};
ghost use Rattle.fields.specs.Limits.{max_variables, max_values};
ghost use Rattle.fields.specs.Front.{head_in, headed, size_in};
ghost use Rattle.rows.specs.Raw.{row_width};
ghost use Rattle.table.specs.Layout.{max_rows, rows_at, capacity};
ghost use Rattle.table.specs.Meaning.{variables_of, row_count, rows_from_in, table_rows};
ghost use Rattle.table.specs.Valid.{sign_kinds, valid_signs, valid_row_in, rows_valid_in, distinct_rows, all_zero, all_below, valid_table};
ghost use Rattle.table.specs.Check.{fulls_from, fulls_in, shape_of, front_table, check_table_in, check_table};

pub mod forms;

use crate::forms::{RowForm, Six};
use clause::Clause;

/// The most rows of a table.
pub const MAX_ROWS: usize = 4096;

/// A valid table's number of variables, number of rows, and the full signs of twelve variables.
#[derive(Clone, Copy)]
pub struct Shape {
    pub variables: usize,
    pub count: usize,
    pub fulls: Clause,
}

/// The full sign of d values.
pub fn full_sign(d: u32) -> u32
    requires { d ≤ max_values }
    ensures { (result ≡ full d) × (result < 256) }
{
    (1u32 << d) - 1
}

/// How many rows of so many words a slice of this length takes over n variables.
pub fn rows_in(len: usize, n: usize, width: usize) -> usize
    requires { (rows_at n ≤ len) × (0 < width) }
    ensures { (result ≡ min max_rows ((len - rows_at n) / width)) × (result ≤ max_rows) }
{
    let rows = (len - n - 2) / width;
    if MAX_ROWS < rows {
        return MAX_ROWS;
    }
    rows
}

/// How many rows a slice of this length takes over n variables.
pub fn room(len: usize, n: usize) -> usize
    requires { rows_at n ≤ len }
    ensures { (result ≡ capacity len n) × (result ≤ max_rows) }
{
    rows_in(len, n, rows::WIDTH)
}

/// The domain size that a station word gives, 0 if it is none from 1 to 8.
fn size_in(w: u32) -> u32
    ensures { (result ≡ size_in w) × (result ≤ max_values) }
{
    if words::kind(w) != 2 {
        return 0;
    }
    let d = words::payload(w);
    if fields::MAX_VALUES < d {
        return 0;
    }
    d
}

/// The number of variables that the word gives, if it is a head of 0 to 12.
fn head_in(w: u32) -> Option<usize>
    ensures { result ≡ headed None Some (head_in w) }
{
    if words::kind(w) != 1 {
        return None;
    }
    let n = words::payload(w) as usize;
    if fields::MAX_VARIABLES < n {
        return None;
    }
    Some(n)
}

/// The signs of the block each lie below the full one beside it.
fn block_below(x: u32, full: u32) -> bool
    requires { (x < 16777216) × (full < 16777216) }
    ensures { result ≡ all_below (unpacked x) (unpacked full) }
{
    if full % 256 <= x % 256 {
        return false;
    }
    if full / 256 % 256 <= x / 256 % 256 {
        return false;
    }
    x / 65536 < full / 65536
}

/// No sign of the clause is full or beyond its variable's values.
pub fn signs_valid(x: Clause, fulls: Clause) -> bool
    requires { FitsBlocks x × FitsBlocks fulls }
    ensures { (ds : List ℕ) → FullSigns fulls ds → result ≡ valid_signs ds (signs_of x) }
{
    if !block_below(x.a, fulls.a) {
        return false;
    }
    if !block_below(x.b, fulls.b) {
        return false;
    }
    if !block_below(x.c, fulls.c) {
        return false;
    }
    block_below(x.d, fulls.d)
}

/// The four words at this place are sign words, in order.
pub fn signs_there(t: &[u32], at: usize) -> bool
    requires { at + 4 ≤ length t.now }
    ensures { result ≡ sign_kinds (drop at t.now) }
{
    if t[at] / 16777216 != 80 {
        return false;
    }
    if t[at + 1] / 16777216 != 81 {
        return false;
    }
    if t[at + 2] / 16777216 != 82 {
        return false;
    }
    t[at + 3] / 16777216 == 83
}

/// The words at this place are a row's.
fn row_valid<F: RowForm>(t: &[u32], at: usize, fulls: Clause) -> bool
    requires { (at + F.form.rows.width ≤ length t.now) × FitsBlocks fulls }
    ensures { (ds : List ℕ) → FullSigns fulls ds → result ≡ valid_row_in F.form ds (drop at t.now) }
{
    if !signs_there(t, at) {
        return false;
    }
    if !F::weighs(t, at) {
        return false;
    }
    signs_valid(rows::clause_at(t, at), fulls)
}

/// Every row is one, and none has the signs of an earlier row.
fn rows_valid<F: RowForm>(t: &[u32], base: usize, count: usize, fulls: Clause) -> bool
    requires { (base + F.form.rows.width * count ≤ length t.now) × FitsBlocks fulls }
    ensures { (ds : List ℕ) → FullSigns fulls ds → result ≡ (rows_valid_in F.form ds count (drop base t.now) && distinct_rows (rows_from_in F.form count (drop base t.now))) }
{
    for k in 0..count {
        let at = base + F::WIDTH * k;
        if !row_valid::<F>(t, at, fulls) {
            return false;
        }
        let earlier = rows::find_spaced(t, base, k, F::WIDTH, rows::clause_at(t, at));
        if earlier.is_some() {
            return false;
        }
    }
    true
}

/// Every word is 0.
fn all_zero(words: &[u32]) -> bool
    ensures { result ≡ list_all (λ w. w == 0) words.now }
{
    words.iter().all(|word| *word == 0)
}

/// Every word from this place on is 0.
#[tactic(auto, using(crate::proofs::Fronts::zeros_told))]
pub fn all_zero_from(t: &[u32], at: usize) -> bool
    requires { at ≤ length t.now }
    ensures { result ≡ all_zero (drop at t.now) }
{
    all_zero(&t[at..])
}

/// Zeros from an index to the end of the slice.
pub fn zero_from(t: &mut [u32], at: usize)
    requires { at ≤ length t.old }
    ensures { t.new ≡ take at t.old ++ replicate (length t.old - at) 0 }
{
    let mut place = at;
    while place < t.len() {
        t[place] = 0;
        place += 1;
    }
}

/// The full signs of twelve variables, n of them with the sizes of the words behind the head, or a word there that is no size.
fn read_fulls(t: &[u32], n: usize) -> Option<Clause>
    requires { (n + 1 ≤ length t.now) × (n ≤ max_variables) }
    ensures { result ≡ fulls_from n (drop 1 t.now) }
{
    let mut fulls = Clause {
        a: 65793,
        b: 65793,
        c: 65793,
        d: 65793,
    };
    let mut i = 0;
    while i < n {
        let d = size_in(t[i + 1]);
        if d == 0 {
            return None;
        }
        fulls = fulls.replaced(i as u32, full_sign(d));
        i += 1;
    }
    Some(fulls)
}

/// The shape that head, sizes and row count give, where these words are there; nothing behind them is looked at.
#[tactic(auto, using(crate::proofs::Checking::too_short))]
pub fn front(t: &[u32]) -> Option<Shape>
    ensures { result ≡ front_table t.now }
{
    if t.len() == 0 {
        return None;
    }
    let Some(n) = head_in(t[0]) else {
        return None;
    };
    if t.len() < n + 2 {
        return None;
    }
    let Some(fulls) = read_fulls(t, n) else {
        return None;
    };
    let word = t[n + 1];
    if words::kind(word) != 10 {
        return None;
    }
    Some(Shape {
        variables: n,
        count: words::payload(word) as usize,
        fulls,
    })
}

/// The shape of a table with rows of this form: of a slice that is valid exactly as documents 01 and 02 say, and none of another.
pub fn check_in<F: RowForm>(t: &[u32]) -> Option<Shape>
    ensures { result ≡ check_table_in F.form t.now }
{
    let shape = front(t)?;
    let n = shape.variables;
    let count = shape.count;
    if rows_in(t.len(), n, F::WIDTH) < count {
        return None;
    }
    if !rows_valid::<F>(t, n + 2, count, shape.fulls) {
        return None;
    }
    if !all_zero_from(t, n + 2 + F::WIDTH * count) {
        return None;
    }
    Some(shape)
}

/// The shape of a table with rows of six words, the form that all calls but one take.
pub fn check(t: &[u32]) -> Option<Shape>
    ensures returned { result ≡ check_table t.now }
{
    check_in::<Six>(t)
}

/// The full signs that were read, no sign where there were none.
fn fulls_in(read: Option<Clause>) -> Clause
    ensures { result ≡ fulls_in read }
{
    match read {
        Some(fulls) => fulls,
        None => Clause {
            a: 0,
            b: 0,
            c: 0,
            d: 0,
        },
    }
}

/// The shape of a valid table, without the test of its rows.
pub fn read_shape(t: &[u32]) -> Shape
    requires { valid_table t.now ≡ true }
    ensures { result ≡ shape_of t.now }
{
    let n = words::payload(t[0]) as usize;
    let count = words::payload(t[n + 1]) as usize;
    let fulls = fulls_in(read_fulls(t, n));
    Shape {
        variables: n,
        count,
        fulls,
    }
}

/// The empty row's weight in a valid table, 0 if there is none.
pub fn empty_weight(t: &[u32], base: usize, count: usize) -> u64
    requires { (valid_table t.now ≡ true) × (base ≡ variables_of t.now + 2) × (count ≡ row_count t.now) }
    ensures { result ≡ empty_weight max_variables (table_rows t.now) }
{
    let found = rows::find(t, base, count, Clause::empty());
    let Some(k) = found else {
        return 0;
    };
    rows::weight_of(t, base, k)
}
