// The public calls for C and Rust: numbers and slices alone cross the boundary. Each returns its number, 0 for success, and writes its other fields to an answer slice.
#![tactic(auto)]

ghost use Rattle.std.specs.Prelude.{◌≡◌, [], ◌∷◌};
ghost use Rattle.resolution.specs.Outcomes.{outcome_of};
ghost use Rattle.resolution.specs.Numbers.{outcome_number, outcome_field};
ghost use Rattle.fields.specs.Answers.{answer_of};
ghost use Rattle.assignment.specs.Calls.{plan_call};
ghost use Rattle.answers.specs.Noted.{noted};
ghost use Rattle.gotalhim.specs.Exports.{make_export, encode_export, step_export, run_export, complete_export, six_export, five_export, check_export, readout_export, cost_export, drive_export, DriveUpholds};

use answers::note;
use fields::refusals::Refusal;
use resolution::Outcome;

/// The number of a call's result for C, 0 for a good one; its value is noted in the answer slice, 0 for a refused one.
fn answered(made: Result<u64, Refusal>, answer: &mut [u64]) -> u32
    ensures number { result ≡ (answer_of made).number }
    ensures noted { answer.new ≡ noted answer.old ((answer_of made).value ∷ []) }
{
    match made {
        Ok(value) => {
            note(answer, &[value]);
            0
        }
        Err(refusal) => {
            note(answer, &[0]);
            refusal.number()
        }
    }
}

/// Make an instance from a sheet. Answer: the words written.
#[unsafe(no_mangle)]
pub extern "C" fn gotalhim_make(sheet: &[u32], target: &mut [u32], answer: &mut [u64]) -> u32
    ensures returned { record { number = result; slices = target.new ∷ []; answer = answer.new } ≡ make_export sheet.now target.old answer.old }
{
    let made = making::make(sheet, target).map(|words| words as u64);
    answered(made, answer)
}

/// Encode an instance as the rows of a table. Answer: the rows.
#[unsafe(no_mangle)]
pub extern "C" fn gotalhim_encode(instance: &[u32], table: &mut [u32], answer: &mut [u64]) -> u32
    ensures returned { record { number = result; slices = table.new ∷ []; answer = answer.new } ≡ encode_export instance.now table.old answer.old }
{
    let encoded = encoding::encode(instance, table).map(|rows| rows as u64);
    answered(encoded, answer)
}

/// Make the next step in a table. Answer: 1 if no pair is left, else 0; the step word.
#[unsafe(no_mangle)]
pub extern "C" fn gotalhim_step(table: &mut [u32], answer: &mut [u64]) -> u32
    ensures returned { record { number = result; slices = table.new ∷ []; answer = answer.new } ≡ step_export table.old answer.old }
{
    match resolution::step(table) {
        Err(refusal) => {
            note(answer, &[0, 0]);
            refusal.number()
        }
        Ok(None) => {
            note(answer, &[1, 0]);
            0
        }
        Ok(Some(word)) => {
            note(answer, &[0, word as u64]);
            0
        }
    }
}

#[tactic(auto, unfolding(resolution::specs::Numbers::outcome_number))]
fn outcome_number(outcome: Outcome) -> u32
    ensures { result ≡ outcome_number (outcome_of outcome) }
{
    match outcome {
        Outcome::Done => 0,
        Outcome::Paused => 0,
        Outcome::Refused(refusal) => refusal.number(),
    }
}

#[tactic(auto, unfolding(resolution::specs::Numbers::outcome_field))]
fn outcome_field(outcome: Outcome) -> u64
    ensures { result ≡ outcome_field (outcome_of outcome) }
{
    match outcome {
        Outcome::Done => 0,
        Outcome::Paused => 1,
        Outcome::Refused(Refusal::BadTable) => 0,
        Outcome::Refused(_) => 2,
    }
}

/// Make steps one after the other. Answer: the outcome, the steps made, the bound; all 0 for 9.
#[unsafe(no_mangle)]
pub extern "C" fn gotalhim_run(
    table: &mut [u32],
    limit: usize,
    derivation: &mut [u32],
    answer: &mut [u64],
) -> u32
    ensures returned { record { number = result; slices = table.new ∷ (derivation.new ∷ []); answer = answer.new }
        ≡ run_export table.old limit derivation.old answer.old }
{
    let ran = resolution::run(table, limit, derivation);
    let outcome = ran.outcome;
    note(
        answer,
        &[outcome_field(outcome), ran.steps as u64, ran.bound],
    );
    outcome_number(outcome)
}

/// Rebuild the assignment of a table in which no pair is left.
#[unsafe(no_mangle)]
pub extern "C" fn gotalhim_plan(table: &[u32], target: &mut [u8]) -> u32
    ensures returned { record { number = result; target = target.new } ≡ plan_call table.now target.old }
{
    match assignment::plan(table, target) {
        Ok(()) => 0,
        Err(refusal) => refusal.number(),
    }
}

/// Complete an assignment of which the values from variable k on are fixed, from a table in which no pair is left. Answer: the cost.
#[unsafe(no_mangle)]
pub extern "C" fn gotalhim_complete(
    table: &[u32],
    k: usize,
    fixed: &[u8],
    target: &mut [u8],
    answer: &mut [u64],
) -> u32
    ensures returned { record { number = result; slices = target.new ∷ []; answer = answer.new }
        ≡ complete_export table.now k fixed.now target.old answer.old }
{
    answered(completion::complete(table, k, fixed, target), answer)
}

/// Turn last year's table of five-word rows into one of six-word rows. Answer: the rows.
#[unsafe(no_mangle)]
pub extern "C" fn gotalhim_to_six(source: &[u32], target: &mut [u32], answer: &mut [u64]) -> u32
    ensures returned { record { number = result; slices = target.new ∷ []; answer = answer.new } ≡ six_export source.now target.old answer.old }
{
    let widened = conversion::to_six(source, target).map(|rows| rows as u64);
    answered(widened, answer)
}

/// Turn a table of six-word rows back into one of five-word rows. Answer: the rows.
#[unsafe(no_mangle)]
pub extern "C" fn gotalhim_to_five(source: &[u32], target: &mut [u32], answer: &mut [u64]) -> u32
    ensures returned { record { number = result; slices = target.new ∷ []; answer = answer.new } ≡ five_export source.now target.old answer.old }
{
    let narrowed = conversion::to_five(source, target).map(|rows| rows as u64);
    answered(narrowed, answer)
}

/// Replay a derivation in a work table, and judge a plan and its claimed cost. Answer: the steps replayed.
#[unsafe(no_mangle)]
pub extern "C" fn gotalhim_check(
    instance: &[u32],
    derivation: &[u32],
    plan: &[u8],
    claimed: u64,
    table: &mut [u32],
    answer: &mut [u64],
) -> u32
    ensures returned { record { number = result; slices = table.new ∷ []; answer = answer.new }
        ≡ check_export instance.now derivation.now plan.now claimed table.old answer.old }
{
    match checker::check(instance, derivation, plan, claimed, table) {
        Ok(steps) => {
            note(answer, &[steps as u64]);
            0
        }
        Err(stopped) => {
            note(answer, &[stopped.steps as u64]);
            stopped.refusal.number()
        }
    }
}

/// The metres from a position to the place of an assignment's value. Answer: the metres.
#[unsafe(no_mangle)]
pub extern "C" fn gotalhim_readout(
    sheet: &[u32],
    plan: &[u8],
    variable: u32,
    easting: u32,
    northing: u32,
    answer: &mut [u64],
) -> u32
    ensures returned { record { number = result; slices = []; answer = answer.new } ≡ readout_export sheet.now plan.now variable easting northing answer.old }
{
    let metres = readout::readout(sheet, plan, variable, easting, northing);
    answered(metres.map(|metres| metres as u64), answer)
}

/// The cost of an assignment in an instance. Answer: the cost.
#[unsafe(no_mangle)]
pub extern "C" fn gotalhim_cost(instance: &[u32], plan: &[u8], answer: &mut [u64]) -> u32
    ensures returned { record { number = result; slices = []; answer = answer.new } ≡ cost_export instance.now plan.now answer.old }
{
    answered(cost::cost(instance, plan), answer)
}

/// Encode an instance, then make the calls of a list of words. Answer: the steps made. Where the encoding is good, demand 3 holds of what is left.
#[unsafe(no_mangle)]
pub extern "C" fn gotalhim_drive(
    instance: &[u32],
    table: &mut [u32],
    calls: &[u32],
    derivation: &mut [u32],
    target: &mut [u8],
    answer: &mut [u64],
) -> u32
    ensures returned { record { number = result; slices = table.new ∷ (derivation.new ∷ (target.new ∷ [])); answer = answer.new }
        ≡ drive_export instance.now table.old calls.now derivation.old target.old answer.old }
    ensures upheld { DriveUpholds instance.now table.old calls.now derivation.old target.old
        result table.new derivation.new }
{
    match calls::drive(instance, table, calls, derivation, target) {
        Ok(made) => {
            note(answer, &[made as u64]);
            0
        }
        Err(refused) => {
            note(answer, &[0]);
            refused.number()
        }
    }
}
