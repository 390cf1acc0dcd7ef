// Steps and runs on a table that the caller lends.
#![tactic(auto)]

ghost use Rattle.std.specs.Prelude.{◌≡◌, true, ℕ, ◌+◌, ◌<◌, ◌≤◌, length};
ghost use Rattle.wcsp.specs.Row.{empty_weight};
ghost use Rattle.wcsp.specs.Unsettled.{lowest_unsettled};
ghost use Rattle.fields.specs.Limits.{max_variables};
ghost use Rattle.table.specs.Meaning.{variables_of, row_count, table_sizes, table_rows, own_rows};
ghost use Rattle.table.specs.Valid.{valid_table};
ghost use Rattle.table.specs.Check.{shape_of};
ghost use Rattle.resolution.specs.Answers.{step_answer_of};
ghost use Rattle.resolution.specs.Outcomes.{run_answer_of};
ghost use Rattle.resolution.specs.Calls.{step_call, run_call};
ghost use Rattle.resolution.specs.Twelve.{run_twelve, resumed};

use fields::refusals::Refusal;
use table::Shape;

/// How a run ended: no pair is left, the limit or the end of the slice is reached, or the next step is refused.
#[derive(Clone, Copy, Debug, PartialEq, Eq)]
pub enum Outcome {
    Done,
    Paused,
    Refused(Refusal),
}

/// A run's outcome, the steps made, and the empty row's weight in the table that it leaves.
#[derive(Clone, Copy, Debug, PartialEq, Eq)]
pub struct RunAnswer {
    pub outcome: Outcome,
    pub steps: usize,
    pub bound: u64,
}

/// What a run on a valid table comes to: its answer, and the last value of its lowest unsettled variable.
#[derive(Clone, Copy)]
struct Ending {
    answer: RunAnswer,
    lowest: u32,
}

/// One step on the next pair of a table: its step word, or `None` if no pair is left.
///
/// The hunt starts at variable 0, so it passes over as many buckets as the pair's variable says.
///
/// # Errors
///
/// `BadTable`; then, of the finished step, `WeightTooHigh` and `TableFull`. The table is left as it was.
#[tactic(auto, using(crate::proofs::Single::stepped_on))]
pub fn step(t: &mut [u32]) -> Result<Option<u32>, Refusal>
    ensures returned { record { answer = step_answer_of result; table = t.new } ≡ step_call t.old }
{
    let checked = table::check(t);
    let Some(shape) = checked else {
        return Err(Refusal::BadTable);
    };
    let found = hunt::hunt(t, shape.variables + 2, shape.count, 0, 0, 0, shape.fulls);
    let Some(next) = found else {
        return Ok(None);
    };
    stepping::advance(t, shape, next.passed, next.first, next.second)?;
    Ok(Some(words::step(next.passed, next.first as u32, next.second as u32)))
}

/// What a run that ends so in this table comes to.
fn ended(
    t: &[u32],
    base: usize,
    count: usize,
    outcome: Outcome,
    steps: usize,
    lowest: u32,
) -> Ending
    requires { (valid_table t.now ≡ true) × (base ≡ variables_of t.now + 2) × (count ≡ row_count t.now) }
    ensures { result ≡ record { answer = record { outcome = outcome; steps = steps; bound = empty_weight max_variables (table_rows t.now) }; lowest = lowest } }
{
    Ending {
        answer: RunAnswer {
            outcome,
            steps,
            bound: table::empty_weight(t, base, count),
        },
        lowest,
    }
}

/// The second row at which the hunt goes on after a step on rows i and j. A heavier row i stays and goes with none before row j's place.
fn resume(t: &[u32], base: usize, i: usize, j: usize) -> usize
    requires { (valid_table t.now ≡ true) × (base ≡ variables_of t.now + 2) × (i < row_count t.now) × (j < row_count t.now) }
    ensures { result ≡ resumed (table_rows t.now) i j }
{
    let first = rows::weight_of(t, base, i);
    let second = rows::weight_of(t, base, j);
    if second < first { j } else { 0 }
}

/// Up to `most` steps on a valid table. The hunt goes on at the lowest unsettled variable, and there at the first row of the last step.
fn run_valid(t: &mut [u32], shape: Shape, most: usize, slice: &mut [u32]) -> Ending
    requires { (valid_table t.old ≡ true) × (shape ≡ shape_of t.old) × (most ≤ length slice.old) }
    ensures { (record { answer = run_answer_of result.answer; table = t.new; slice = slice.new } ≡ run_twelve t.old most slice.old) × (result.lowest ≡ lowest_unsettled (table_sizes t.new) (own_rows t.new)) }
{
    let n = shape.variables;
    let fulls = shape.fulls;
    let base = n + 2;
    let mut count = shape.count;
    let mut lowest = 0;
    let mut skip = 0;
    let mut from = 0;
    let mut made = 0;
    // The steps made are the answer, and the hunt comes before the test of the limit: no range says both.
    loop {
        let found = hunt::hunt(t, base, count, lowest, skip, from, fulls);
        let Some(pair) = found else {
            return ended(t, base, count, Outcome::Done, made, n as u32);
        };
        lowest += pair.passed;
        if made == most {
            return ended(t, base, count, Outcome::Paused, made, lowest);
        }
        let here = Shape {
            variables: n,
            count,
            fulls,
        };
        let next = resume(t, base, pair.first, pair.second);
        let advanced = stepping::advance(t, here, lowest, pair.first, pair.second);
        match advanced {
            Ok(now) => count = now,
            Err(refusal) => {
                return ended(t, base, count, Outcome::Refused(refusal), made, lowest);
            }
        }
        slice[made] = words::step(lowest, pair.first as u32, pair.second as u32);
        made += 1;
        skip = pair.first;
        from = next;
    }
}

/// Steps on a table, as many as the limit and the slice for their words allow. Before each step: done, paused, `WeightTooHigh`, `TableFull`.
///
/// It tests the table once (`BadTable`), and each hunt goes on where the last one ended.
pub fn run(t: &mut [u32], limit: usize, slice: &mut [u32]) -> RunAnswer
    ensures returned { record { answer = run_answer_of result; table = t.new; slice = slice.new } ≡ run_call t.old limit slice.old }
{
    let checked = table::check(t);
    let Some(shape) = checked else {
        return RunAnswer {
            outcome: Outcome::Refused(Refusal::BadTable),
            steps: 0,
            bound: 0,
        };
    };
    let most = limit.min(slice.len());
    run_valid(t, shape, most, slice).answer
}
