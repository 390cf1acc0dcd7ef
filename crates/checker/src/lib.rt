// The checker: it encodes an instance in a work table, replays step words there, each on any permitted pair, and judges the claim.
#![tactic(auto)]

ghost use Rattle.std.specs.Prelude.{◌≡◌, ◌<◌, true, cond};
ghost use Rattle.wcsp.specs.Row.{empty_weight};
ghost use Rattle.fields.specs.Limits.{max_variables};
ghost use Rattle.fields.specs.Numbers.{number_of, refusal_in};
ghost use Rattle.input.specs.Instance.{instance_fault};
ghost use Rattle.table.specs.Meaning.{table_rows, domains};
ghost use Rattle.table.specs.Valid.{valid_table};
ghost use Rattle.table.specs.Check.{shape_of};
ghost use Rattle.checker.specs.Answer.{checked_as};
ghost use Rattle.checker.specs.Replay.{named_pair};
ghost use Rattle.checker.specs.Twelve.{named_of, replay_call};
ghost use Rattle.checker.specs.Calls.{claim_holds, check_call};

use fields::refusals::Refusal;
use table::Shape;
use words::Word;

/// A replay or a check that was stopped, with the steps that it had replayed.
#[derive(Clone, Copy, Debug, PartialEq, Eq)]
pub struct Stopped {
    /// Why it was stopped.
    pub refusal: Refusal,
    /// The steps replayed before.
    pub steps: usize,
}

/// A variable and two rows that may be resolved on it.
#[derive(Clone, Copy)]
struct Pair {
    pub variable: u32,
    pub first: usize,
    pub second: usize,
}

/// The permitted pair that a word names on a valid table: variable known, first row below the second, both in the table.
#[tactic(auto, using(crate::proofs::Naming::forbidden_at))]
fn named_pair(t: &[u32], shape: Shape, w: u32) -> Option<Pair>
    requires { (valid_table t.now ≡ true) × (shape ≡ shape_of t.now) }
    ensures { result ≡ named_of (named_pair (domains t.now) (table_rows t.now) w) }
{
    let Word::Step(v, first, second) = Word::from(w) else {
        return None;
    };
    let i = first as usize;
    let j = second as usize;
    if 12 <= v {
        return None;
    }
    if j <= i {
        return None;
    }
    if shape.count <= j {
        return None;
    }
    let base = shape.variables + 2;
    let x = rows::clause_of(t, base, i);
    let y = rows::clause_of(t, base, j);
    if !x.may_resolve(y, v, shape.fulls) {
        return None;
    }
    Some(Pair {
        variable: v,
        first: i,
        second: j,
    })
}

/// Makes the step of each word in turn on a valid table, up to the first that is refused. The result is how many were made.
fn replay(t: &mut [u32], derivation: &[u32]) -> Result<usize, Stopped>
    requires { valid_table t.old ≡ true }
    ensures { record { answer = checked_as result; table = t.new } ≡ replay_call t.old derivation.now }
{
    let mut shape = table::read_shape(t);
    for (steps, &w) in derivation.iter().enumerate() {
        let Some(pair) = named_pair(t, shape, w) else {
            return Err(Stopped {
                refusal: Refusal::BadStep,
                steps,
            });
        };
        match stepping::advance(t, shape, pair.variable, pair.first, pair.second) {
            Ok(count) => shape.count = count,
            Err(refusal) => {
                return Err(Stopped { refusal, steps });
            }
        }
    }
    Ok(derivation.len())
}

/// Judges the claim on a valid table: refused unless the claimed cost is the plan's and the empty row's weight.
#[tactic(auto, using(crate::proofs::Judging::claim_unplanned, crate::proofs::Judging::claim_other_cost, crate::proofs::Judging::claim_other_weight, crate::proofs::Judging::refused_more))]
fn judge(instance: &[u32], plan: &[u8], claimed: u64, t: &[u32]) -> Result<(), Refusal>
    requires { (instance_fault instance.now ≡ 0) × (valid_table t.now ≡ true) }
    ensures { refusal_in result ≡ cond (claim_holds instance.now plan.now claimed (empty_weight max_variables (table_rows t.now))) 0 7 }
{
    let Ok(cost) = cost::cost(instance, plan) else {
        return Err(Refusal::BadClaim);
    };
    if claimed != cost {
        return Err(Refusal::BadClaim);
    }
    let shape = table::read_shape(t);
    if claimed != table::empty_weight(t, shape.variables + 2, shape.count) {
        return Err(Refusal::BadClaim);
    }
    Ok(())
}

/// Encodes an instance in a work table, replays a derivation's step words there, each on any permitted pair, and judges a plan and the cost that is
/// claimed to be the least. The result is how many steps were replayed.
///
/// # Errors
///
/// A fault of the instance, `TargetTooShort` or `TableFull` where it is not encoded: the table is then kept. `BadStep`, `WeightTooHigh` or
/// `TableFull` at the first step word that is refused, then `BadClaim`: the table is then as the last good step left it.
#[tactic(auto, using(crate::proofs::Checking::stopped_at, crate::proofs::Checking::judged_at, crate::proofs::Judging::refused_more))]
pub fn check(
    instance: &[u32],
    derivation: &[u32],
    plan: &[u8],
    claimed: u64,
    t: &mut [u32],
) -> Result<usize, Stopped>
    ensures returned { record { answer = checked_as result; table = t.new } ≡ check_call instance.now derivation.now plan.now claimed t.old }
{
    if let Err(refusal) = encoding::encode(instance, t) {
        return Err(Stopped { refusal, steps: 0 });
    }
    let steps = replay(t, derivation)?;
    match judge(instance, plan, claimed, t) {
        Ok(()) => Ok(steps),
        Err(refusal) => Err(Stopped { refusal, steps }),
    }
}
