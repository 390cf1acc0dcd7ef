// The calls of `gotalhim` for C: each hands on what the library's function of its name answers, under the same clauses.
#![tactic(auto)]

ghost use Rattle.std.specs.Prelude.{◌≡◌, [], ◌∷◌};
ghost use Rattle.assignment.specs.Calls.{plan_call};
ghost use Rattle.gotalhim.specs.Exports.{make_export, encode_export, step_export, run_export, complete_export, six_export, five_export, check_export, readout_export, cost_export, drive_export, DriveUpholds};

/// Make an instance from a sheet. Answer: the words written.
#[unsafe(no_mangle)]
pub extern "C" fn gotalhim_make(sheet: &[u32], target: &mut [u32], answer: &mut [u64]) -> u32
    ensures returned { record { number = result; slices = target.new ∷ []; answer = answer.new } ≡ make_export sheet.now target.old answer.old }
{
    gotalhim::gotalhim_make(sheet, target, answer)
}

/// Encode an instance as the rows of a table. Answer: the rows.
#[unsafe(no_mangle)]
pub extern "C" fn gotalhim_encode(instance: &[u32], table: &mut [u32], answer: &mut [u64]) -> u32
    ensures returned { record { number = result; slices = table.new ∷ []; answer = answer.new } ≡ encode_export instance.now table.old answer.old }
{
    gotalhim::gotalhim_encode(instance, table, answer)
}

/// Make the next step in a table. Answer: 1 if no pair is left, else 0; the step word.
#[unsafe(no_mangle)]
pub extern "C" fn gotalhim_step(table: &mut [u32], answer: &mut [u64]) -> u32
    ensures returned { record { number = result; slices = table.new ∷ []; answer = answer.new } ≡ step_export table.old answer.old }
{
    gotalhim::gotalhim_step(table, answer)
}

/// Make steps one after the other. Answer: the outcome, the steps made, the bound; all 0 for 9.
#[unsafe(no_mangle)]
pub extern "C" fn gotalhim_run(
    table: &mut [u32],
    limit: usize,
    derivation: &mut [u32],
    answer: &mut [u64],
) -> u32
    ensures returned { record { number = result; slices = table.new ∷ (derivation.new ∷ []); answer = answer.new }
        ≡ run_export table.old limit derivation.old answer.old }
{
    gotalhim::gotalhim_run(table, limit, derivation, answer)
}

/// Rebuild the assignment of a table in which no pair is left.
#[unsafe(no_mangle)]
pub extern "C" fn gotalhim_plan(table: &[u32], target: &mut [u8]) -> u32
    ensures returned { record { number = result; target = target.new } ≡ plan_call table.now target.old }
{
    gotalhim::gotalhim_plan(table, target)
}

/// Complete an assignment of which the values from variable k on are fixed, from a table in which no pair is left. Answer: the cost.
#[unsafe(no_mangle)]
pub extern "C" fn gotalhim_complete(
    table: &[u32],
    k: usize,
    fixed: &[u8],
    target: &mut [u8],
    answer: &mut [u64],
) -> u32
    ensures returned { record { number = result; slices = target.new ∷ []; answer = answer.new }
        ≡ complete_export table.now k fixed.now target.old answer.old }
{
    gotalhim::gotalhim_complete(table, k, fixed, target, answer)
}

/// Turn last year's table of five-word rows into one of six-word rows. Answer: the rows.
#[unsafe(no_mangle)]
pub extern "C" fn gotalhim_to_six(source: &[u32], target: &mut [u32], answer: &mut [u64]) -> u32
    ensures returned { record { number = result; slices = target.new ∷ []; answer = answer.new } ≡ six_export source.now target.old answer.old }
{
    gotalhim::gotalhim_to_six(source, target, answer)
}

/// Turn a table of six-word rows back into one of five-word rows. Answer: the rows.
#[unsafe(no_mangle)]
pub extern "C" fn gotalhim_to_five(source: &[u32], target: &mut [u32], answer: &mut [u64]) -> u32
    ensures returned { record { number = result; slices = target.new ∷ []; answer = answer.new } ≡ five_export source.now target.old answer.old }
{
    gotalhim::gotalhim_to_five(source, target, answer)
}

/// Replay a derivation in a work table, and judge a plan and its claimed cost. Answer: the steps replayed.
#[unsafe(no_mangle)]
pub extern "C" fn gotalhim_check(
    instance: &[u32],
    derivation: &[u32],
    plan: &[u8],
    claimed: u64,
    table: &mut [u32],
    answer: &mut [u64],
) -> u32
    ensures returned { record { number = result; slices = table.new ∷ []; answer = answer.new }
        ≡ check_export instance.now derivation.now plan.now claimed table.old answer.old }
{
    gotalhim::gotalhim_check(instance, derivation, plan, claimed, table, answer)
}

/// The metres from a position to the place of an assignment's value. Answer: the metres.
#[unsafe(no_mangle)]
pub extern "C" fn gotalhim_readout(
    sheet: &[u32],
    plan: &[u8],
    variable: u32,
    easting: u32,
    northing: u32,
    answer: &mut [u64],
) -> u32
    ensures returned { record { number = result; slices = []; answer = answer.new } ≡ readout_export sheet.now plan.now variable easting northing answer.old }
{
    gotalhim::gotalhim_readout(sheet, plan, variable, easting, northing, answer)
}

/// The cost of an assignment in an instance. Answer: the cost.
#[unsafe(no_mangle)]
pub extern "C" fn gotalhim_cost(instance: &[u32], plan: &[u8], answer: &mut [u64]) -> u32
    ensures returned { record { number = result; slices = []; answer = answer.new } ≡ cost_export instance.now plan.now answer.old }
{
    gotalhim::gotalhim_cost(instance, plan, answer)
}

/// Encode an instance, then make the calls of a list of words. Answer: the steps made. Where the encoding is good, demand 3 holds of what is left.
#[unsafe(no_mangle)]
pub extern "C" fn gotalhim_drive(
    instance: &[u32],
    table: &mut [u32],
    calls: &[u32],
    derivation: &mut [u32],
    target: &mut [u8],
    answer: &mut [u64],
) -> u32
    ensures returned { record { number = result; slices = table.new ∷ (derivation.new ∷ (target.new ∷ [])); answer = answer.new }
        ≡ drive_export instance.now table.old calls.now derivation.old target.old answer.old }
    ensures upheld { DriveUpholds instance.now table.old calls.now derivation.old target.old
        result table.new derivation.new }
{
    gotalhim::gotalhim_drive(instance, table, calls, derivation, target, answer)
}
