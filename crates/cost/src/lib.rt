// The cost call: the sum of the costs of the entries that an assignment matches, over the words of an instance.
#![tactic(auto)]

ghost use Rattle.std.specs.Prelude.{◌≡◌, true, ◌≤◌, drop};
ghost use Rattle.fields.specs.Limits.{greatest_cost};
ghost use Rattle.fields.specs.Answers.{answer_of};
ghost use Rattle.cost.specs.Costing.{cost_in, matched_after, cost_from};
ghost use Rattle.cost.specs.Calls.{cost_call};

use fields::refusals::Refusal;
use words::Word;

/// What a word adds to the cost: what it gives, if the bindings before it are matched.
#[tactic(auto, unfolding(crate::specs::Costing::cost_in))]
fn cost_in(matched: bool, w: u32) -> u64
    ensures { result ≡ cost_in matched w }
{
    if matched {
        u64::from(fields::cost_of(w))
    } else {
        0
    }
}

/// Whether the bindings of the open entry are matched behind a word.
#[tactic(auto, using(crate::proofs::Costing::matched_said))]
fn matched_after(plan: &[u8], matched: bool, w: u32) -> bool
    ensures { result ≡ matched_after plan.now matched w }
{
    match Word::from(w) {
        Word::Binding(variable, value) => {
            if !matched {
                return false;
            }
            u32::from(plan.get(variable as usize).copied().unwrap_or(0)) == value
        }
        Word::Cost(_) => true,
        Word::Forbidden(_) => true,
        _ => matched,
    }
}

/// The sum of the costs of the entries from an index on that the assignment matches.
fn cost_from(words: &[u32], at: usize, plan: &[u8]) -> u64
    requires { cost_from plan.now true (drop at words.now) ≤ greatest_cost }
    ensures { result ≡ cost_from plan.now true (drop at words.now) }
{
    let mut matched = true;
    let mut sum: u64 = 0;
    for i in at..words.len() {
        sum += cost_in(matched, words[i]);
        matched = matched_after(plan, matched, words[i]);
    }
    sum
}

/// The cost of a plan in an instance: the sum of the costs of the entries that the plan matches.
///
/// # Errors
///
/// The instance's fault, then `BadClaim` for bytes that are no assignment.
#[tactic(auto, using(crate::proofs::Pricing::cost_refused, crate::proofs::Pricing::cost_small, crate::proofs::Pricing::cost_not, crate::proofs::Pricing::cost_is))]
pub fn cost(words: &[u32], plan: &[u8]) -> Result<u64, Refusal>
    ensures returned { answer_of result ≡ cost_call words.now plan.now }
{
    let instance = input::validate(words)?;
    if !fields::is_assignment(&instance.sizes, plan) {
        return Err(Refusal::BadClaim);
    }
    Ok(cost_from(words, instance.sizes.len() + 1, plan))
}
