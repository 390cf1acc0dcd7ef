// The encode call: an instance as rows in a table that the caller lends. It looks before it writes.
#![tactic(auto)]

ghost use Rattle.std.specs.Prelude.{◌≡◌, not, ◌&&◌, cond, [], map, ◌+◌, ◌≤◌, length, drop, eqb, leb};
ghost use Rattle.wcsp.specs.Sign.{full};
ghost use Rattle.wcsp.specs.Clause.{same};
ghost use Rattle.fields.specs.Answers.{answer_of};
ghost use Rattle.fields.specs.Entries.{EachSize, cost_of};
ghost use Rattle.fields.specs.Padding.{padded};
ghost use Rattle.clause.specs.Packed.{signs_of, FitsBlocks, Holds};
ghost use Rattle.rows.specs.Raw.{Left};
ghost use Rattle.table.specs.Layout.{table_words};
ghost use Rattle.table.specs.Valid.{has_signs};
ghost use Rattle.table.specs.Raws.{raw_of};
ghost use Rattle.encoding.specs.Calls.{encode_call};
ghost use Rattle.encoding.specs.Coding.{Proper, AllProper, positives, signs_after, rows_to, Encodable};

use clause::Clause;
use fields::refusals::Refusal;
use words::Word;
use words::kinds::Kind;

/// The full signs of twelve variables, those that are lacking having one value.
fn full_signs(sizes: &[u8]) -> Clause
    requires { (length sizes.now ≤ 12) × EachSize (padded sizes.now) }
    ensures { Holds result (map full (padded sizes.now)) }
{
    let mut fulls = Clause::empty();
    for i in 0..12 {
        let size = sizes.get(i as usize).copied().unwrap_or(1);
        fulls = fulls.replaced(i, table::full_sign(u32::from(size)));
    }
    fulls
}

/// The signs of the open entry behind a word: a binding leaves the named value out, a cost or a forbidden word closes the entry.
fn signs_after(pending: Clause, w: u32, fulls: Clause) -> Clause
    requires { FitsBlocks pending × FitsBlocks fulls × Proper (signs_of fulls) w }
    ensures { Holds result (signs_after (signs_of fulls) (signs_of pending) w) }
{
    match Word::from(w) {
        Word::Binding(v, a) => {
            let value = 1u32 << a;
            let sign = fulls.sign(v) - value;
            pending.replaced(v, sign)
        }
        Word::Cost(_) => Clause::empty(),
        Word::Forbidden(_) => Clause::empty(),
        _ => pending,
    }
}

/// How many words from an index on give a cost above 0: no fewer than the rows of the encoding.
fn positive(instance: &[u32], at: usize) -> usize
    ensures { result ≡ positives (drop at instance.now) }
{
    let mut n: usize = 0;
    for i in at..instance.len() {
        if fields::cost_of(instance[i]) != 0 {
            n += 1;
        }
    }
    n
}

/// The word ends an entry of cost above 0 whose signs are this clause's.
fn adds(pending: Clause, w: u32, clause: Clause) -> bool
    requires { FitsBlocks pending × FitsBlocks clause }
    ensures { result ≡ (not (eqb (cost_of w) 0) && same (signs_of pending) (signs_of clause)) }
{
    if fields::cost_of(w) == 0 {
        return false;
    }
    pending.equals(clause)
}

/// An entry of cost above 0 between two indices has this clause.
fn seen(instance: &[u32], at: usize, end: usize, fulls: Clause, clause: Clause) -> bool
    requires { (at ≤ end) × (end ≤ length instance.now) × FitsBlocks fulls × FitsBlocks clause × AllProper (signs_of fulls) at instance.now }
    ensures { result ≡ has_signs (signs_of clause) (rows_to (signs_of fulls) at end instance.now) }
{
    let mut pending = Clause::empty();
    for i in at..end {
        let w = instance[i];
        if adds(pending, w, clause) {
            return true;
        }
        pending = signs_after(pending, w, fulls);
    }
    false
}

/// How many rows the word at an index adds: one if it ends an entry of cost above 0 whose clause no earlier entry has.
fn fresh(instance: &[u32], at: usize, end: usize, fulls: Clause, pending: Clause, w: u32) -> usize
    requires { (at ≤ end) × (end ≤ length instance.now) × FitsBlocks fulls × FitsBlocks pending × AllProper (signs_of fulls) at instance.now }
    ensures { (result ≡ cond (eqb (cost_of w) 0) 0 (cond (has_signs (signs_of pending) (rows_to (signs_of fulls) at end instance.now)) 0 1)) × (result ≤ 1) }
{
    if fields::cost_of(w) == 0 {
        return 0;
    }
    if seen(instance, at, end, fulls, pending) {
        return 0;
    }
    1
}

/// The number of rows of the encoding, counted without writing.
fn distinct(instance: &[u32], at: usize, fulls: Clause) -> usize
    requires { FitsBlocks fulls × AllProper (signs_of fulls) at instance.now }
    ensures { result ≡ length (rows_to (signs_of fulls) at (length instance.now) instance.now) }
{
    let mut pending = Clause::empty();
    let mut count: usize = 0;
    for i in at..instance.len() {
        let w = instance[i];
        count += fresh(instance, at, i, fulls, pending, w);
        pending = signs_after(pending, w, fulls);
    }
    count
}

/// The rows of the encoding are at most `room`. They are counted only where the words of cost above 0 are more than that.
fn has_room(instance: &[u32], at: usize, fulls: Clause, room: usize) -> bool
    requires { FitsBlocks fulls × AllProper (signs_of fulls) at instance.now }
    ensures { result ≡ leb (length (rows_to (signs_of fulls) at (length instance.now) instance.now)) room }
{
    if positive(instance, at) <= room {
        return true;
    }
    distinct(instance, at, fulls) <= room
}

/// The table of no rows over the whole slice.
fn clear(t: &mut [u32], sizes: &[u8])
    requires { (length sizes.now ≤ 12) × (length sizes.now + 2 ≤ length t.old) }
    ensures { t.new ≡ table_words (length t.old) sizes.now [] }
{
    let n = sizes.len();
    table::zero_from(t, n + 1);
    fields::write_front(t, sizes);
    t[n + 1] = Kind::Count.word(0);
}

/// The rows of the entries from an index on, in a table without rows. Answers their number.
fn encode_entries(instance: &[u32], at: usize, t: &mut [u32], base: usize, fulls: Clause) -> usize
    requires { FitsBlocks fulls × Encodable (signs_of fulls) at instance.now t.old base }
    ensures { let rs = rows_to (signs_of fulls) at (length instance.now) instance.now in Left t.old base t.new (map raw_of rs) × (result ≡ length rs) }
{
    let mut pending = Clause::empty();
    let mut count: usize = 0;
    for i in at..instance.len() {
        let w = instance[i];
        count = storing::add(t, base, count, pending, u64::from(fields::cost_of(w)));
        pending = signs_after(pending, w, fulls);
    }
    count
}

/// Makes the whole slice the table of an instance's encoding, and answers the number of its rows.
///
/// # Errors
///
/// The instance's fault; then `TargetTooShort` for a slice too short for head, sizes and row count, and `TableFull` for one
/// without room for the rows. The slice then stays as it was.
#[tactic(auto, using(crate::proofs::Answering::encode_refused))]
pub fn encode(instance: &[u32], t: &mut [u32]) -> Result<usize, Refusal>
    ensures returned { record { answer = answer_of result; table = t.new } ≡ encode_call instance.now t.old }
{
    let read = input::validate(instance)?;
    let n = read.sizes.len();
    if t.len() < n + 2 {
        return Err(Refusal::TargetTooShort);
    }
    let fulls = full_signs(&read.sizes);
    if !has_room(instance, n + 1, fulls, table::room(t.len(), n)) {
        return Err(Refusal::TableFull);
    }
    clear(t, &read.sizes);
    let count = encode_entries(instance, n + 1, t, n + 2, fulls);
    t[n + 1] = Kind::Count.word(count as u32);
    Ok(count)
}
