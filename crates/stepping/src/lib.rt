// One step on a table that the caller lends: it looks at every conclusion first, then writes, whole or not at all.
#![tactic(auto)]

ghost use Rattle.std.specs.Prelude.{◌≡◌, IfOk, IfErr, true, cond, ℕ, ◌+◌, ◌*◌, ◌<◌, ◌≤◌, length, get_or, eqb, ltb};
ghost use Rattle.wcsp.specs.Resolve.{MayResolve};
ghost use Rattle.clause.specs.Packed.{FitsBlocks, signs_of};
ghost use Rattle.conclusions.specs.Buffer.{clauses_in, PackedBuffer};
ghost use Rattle.rows.specs.Raw.{row_width, max_weight, raws_in, Laid, Left};
ghost use Rattle.table.specs.Meaning.{table_rows, domains};
ghost use Rattle.table.specs.Valid.{valid_table};
ghost use Rattle.table.specs.Check.{shape_of};
ghost use Rattle.fields.specs.Numbers.{number_of, refusal_in};
ghost use Rattle.stepping.specs.Advance.{AdvanceReturned, Refused, advanced_of, advance_call};
ghost use Rattle.stepping.specs.Turns.{weight_at, place_in, fresh_to, heavy_to, Placed, raised_to, taken_from, appended_to, Surveyed};

use clause::Clause;
use fields::refusals::Refusal;
use table::Shape;

/// What the look at the conclusions finds: how many have no row yet, and whether a weight would pass the limit.
#[derive(Clone, Copy)]
struct Sight {
    pub fresh: usize,
    pub heavy: bool,
}

/// A step that may be made: how many conclusions count, and the weight that each gets.
#[derive(Clone, Copy)]
struct Plan {
    pub kept: usize,
    pub moved: u64,
}

/// How many rows go, of one with this weight, when the moved weight is taken from it.
fn used(weight: u64, moved: u64) -> usize
    ensures { (result ≡ cond (eqb weight moved) 1 0) × (result ≤ 1) }
{
    if weight == moved {
        return 1;
    }
    0
}

/// Where the clause's row stands; the row count if it has none.
fn place(t: &[u32], base: usize, count: usize, x: Clause) -> usize
    requires { (base + row_width * count ≤ length t.now) × FitsBlocks x }
    ensures { (result ≡ place_in count (raws_in t.now base count) (signs_of x)) × (result ≤ count) }
{
    let found = rows::find(t, base, count, x);
    match found {
        Some(k) => k,
        None => count,
    }
}

/// Whether the row at this place would pass the limit.
fn passes(t: &[u32], base: usize, count: usize, k: usize, moved: u64) -> bool
    requires { (base + row_width * count ≤ length t.now) × (k ≤ count) × (moved ≤ max_weight) }
    ensures { result ≡ ltb max_weight (weight_at (raws_in t.now base count) k + moved) }
{
    if k == count {
        return false;
    }
    rows::MAX_WEIGHT < rows::weight_of(t, base, k) + moved
}

/// Notes where each conclusion's row stands; the row count for one that has none.
fn look(
    t: &[u32],
    base: usize,
    count: usize,
    buffer: &[u32; 104],
    kept: usize,
    moved: u64,
    places: &mut [usize; 26],
) -> Sight
    requires { (base + row_width * count ≤ length t.now) × (kept ≤ 26) × (moved ≤ max_weight) × PackedBuffer buffer.now × (length places.old ≡ 26) }
    ensures { let qs = raws_in t.now base count in let cs = clauses_in kept buffer.now in (result.fresh ≡ fresh_to count qs cs kept) × (result.heavy ≡ heavy_to moved count qs cs kept) × Placed count qs cs kept places.new × (result.fresh ≤ kept) }
{
    let mut fresh = 0;
    let mut heavy = false;
    for m in 0..kept {
        let k = place(t, base, count, conclusions::clause_at(buffer, m));
        places[m] = k;
        if k == count {
            fresh += 1;
        }
        if passes(t, base, count, k, moved) {
            heavy = true;
        }
    }
    Sight { fresh, heavy }
}

/// The moved weight added to every row that was found.
fn raise(t: &mut [u32], base: usize, count: usize, places: &[usize; 26], kept: usize, moved: u64)
    requires { let qs = raws_in t.old base count in Laid t.old base qs × (kept ≤ 26) × ((m : ℕ) → m < kept → weight_at (raised_to moved places.now qs m) (get_or places.now m 0) + moved ≤ max_weight) }
    ensures { Left t.old base t.new (raised_to moved places.now (raws_in t.old base count) kept) }
{
    for m in 0..kept {
        let k = places[m];
        if k < count {
            let weight = rows::weight_of(t, base, k);
            storing::reweigh(t, base, count, k, weight + moved);
        }
    }
}

/// The moved weight taken from row k; a row at 0 is removed. The answer is the number of rows left.
fn lessen(t: &mut [u32], base: usize, count: usize, k: usize, moved: u64) -> usize
    requires { Laid t.old base (raws_in t.old base count) × (k < count) × (moved ≤ weight_at (raws_in t.old base count) k) }
    ensures { let qs = taken_from moved k (raws_in t.old base count) in Left t.old base t.new qs × (result ≡ length qs) }
{
    let weight = rows::weight_of(t, base, k);
    if weight == moved {
        storing::remove(t, base, count, k);
        return count - 1;
    }
    storing::reweigh(t, base, count, k, weight - moved);
    count
}

/// A new row for every conclusion that had none, in order. `old` is the count that marks those, `count` the rows there now.
fn append_missing(
    t: &mut [u32],
    base: usize,
    count: usize,
    old: usize,
    buffer: &[u32; 104],
    places: &[usize; 26],
    kept: usize,
    moved: u64,
) -> usize
    requires { let qs = raws_in t.old base count in Laid t.old base qs × (kept ≤ 26) × (moved ≤ max_weight) × PackedBuffer buffer.now × (base + row_width * length (appended_to moved old places.now (clauses_in kept buffer.now) qs kept) ≤ length t.old) }
    ensures { let qs = appended_to moved old places.now (clauses_in kept buffer.now) (raws_in t.old base count) kept in Left t.old base t.new qs × (result ≡ length qs) }
{
    let mut now = count;
    for m in 0..kept {
        if places[m] == old {
            storing::append(t, base, now, conclusions::clause_at(buffer, m), moved);
            now += 1;
        }
    }
    now
}

/// Whether a step may be made, where so many rows are left of those that were there: a weight that is too high comes before a table that is full.
fn allow(sight: Sight, left: usize, room: usize) -> Result<(), Refusal>
    requires { left + sight.fresh < 1048576 }
    ensures { refusal_in result ≡ cond sight.heavy 11 (cond (ltb room (left + sight.fresh)) 12 0) }
{
    if sight.heavy {
        return Err(Refusal::WeightTooHigh);
    }
    if room < left + sight.fresh {
        return Err(Refusal::TableFull);
    }
    Ok(())
}

/// The look at the whole step: its conclusions and their places, or why it may not be made.
fn survey(
    t: &[u32],
    shape: Shape,
    v: u32,
    i: usize,
    j: usize,
    buffer: &mut [u32; 104],
    places: &mut [usize; 26],
) -> Result<Plan, Refusal>
    requires { (valid_table t.now ≡ true) × (shape ≡ shape_of t.now) × MayResolve (domains t.now) (table_rows t.now) (record { variable = v; first = i; second = j }) × PackedBuffer buffer.old × (length places.old ≡ 26) }
    ensures planned { IfOk result (λ plan. Surveyed t.now (record { variable = v; first = i; second = j }) buffer.new places.new plan.kept plan.moved) }
    ensures refused { IfErr result (λ r. ◌≡◌ {A = AdvanceReturned} (record { answer = Refused (number_of r); table = t.now }) (advance_call t.now (record { variable = v; first = i; second = j }))) }
{
    let n = shape.variables;
    let base = n + 2;
    let count = shape.count;
    let fulls = shape.fulls;
    let first = rows::weight_of(t, base, i);
    let second = rows::weight_of(t, base, j);
    let moved = first.min(second);
    let kept = conclusions::conclude(
        buffer,
        rows::clause_of(t, base, i),
        rows::clause_of(t, base, j),
        v,
        fulls,
    );
    let sight = look(t, base, count, buffer, kept, moved, places);
    let left = count - used(first, moved) - used(second, moved);
    allow(sight, left, table::room(t.len(), n))?;
    Ok(Plan { kept, moved })
}

/// The step on rows i and j of a valid table, a permitted pair on v, whole or not at all: the number of rows after it.
pub fn advance(t: &mut [u32], shape: Shape, v: u32, i: usize, j: usize) -> Result<usize, Refusal>
    requires { (valid_table t.old ≡ true) × (shape ≡ shape_of t.old) × MayResolve (domains t.old) (table_rows t.old) (record { variable = v; first = i; second = j }) }
    ensures { record { answer = advanced_of result; table = t.new } ≡ advance_call t.old (record { variable = v; first = i; second = j }) }
{
    let n = shape.variables;
    let base = n + 2;
    let count = shape.count;
    let mut buffer = [0u32; 104];
    let mut places = [0usize; 26];
    let plan = survey(t, shape, v, i, j, &mut buffer, &mut places)?;
    raise(t, base, count, &places, plan.kept, plan.moved);
    let fewer = lessen(t, base, count, j, plan.moved);
    let old = lessen(t, base, fewer, i, plan.moved);
    let now = append_missing(t, base, old, count, &buffer, &places, plan.kept, plan.moved);
    t[n + 1] = words::count(now as u32);
    Ok(now)
}
