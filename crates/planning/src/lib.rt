// A sheet planned: the value that it comes to, in lent buffers of any length, and for bytes in the program's own.
#![tactic(auto)]

ghost use Rattle.std.specs.Prelude.{◌≡◌};
ghost use Rattle.resolution.specs.Outcomes.{outcome_of};
ghost use Rattle.planning.specs.Values.{ending_as, solved_as};
ghost use Rattle.planning.specs.Solving.{stopped_solved, value_of, finished_solved, ended_solved, solve_table, solve_instance, solve_call, solve_bytes, solved_of};

use fields::MAX_VARIABLES;
use fields::refusals::{Fault, Refusal};
use littleendian::read_words;
use resolution::{Outcome, RunAnswer};

/// The words of the program's buffers for a sheet, for its instance and for the steps of its run.
pub const BUFFER_WORDS: usize = 16000;

/// The words of the program's buffer for the table.
pub const TABLE_BUFFER: usize = 15998;

/// The most steps of the program's run.
pub const STEP_LIMIT: usize = 16000;

/// How planning a sheet ended.
#[derive(Clone, Copy, Debug, PartialEq, Eq)]
pub enum Ending {
    /// Refused: for a fault, a length, the rows of the encoding, or since every plan has a forbidden combination.
    Refused(Refusal),
    /// A plan of least cost.
    Planned,
    /// The run has made as many steps as it may.
    Paused,
    /// The next step has more rows than the table takes.
    Full,
}

/// What planning a sheet came to.
#[derive(Clone, Copy, Debug, PartialEq, Eq)]
pub struct Solved {
    /// How it ended.
    pub ending: Ending,
    /// The steps of the run; 0 where refused.
    pub steps: usize,
    /// The cost of the plan, or what no plan costs less than; 0 where refused.
    pub bound: u64,
    /// A value for each variable and zeros behind them; zeros where there is no plan.
    pub plan: [u8; MAX_VARIABLES],
}

impl Solved {
    /// Without a plan: so many steps, and a bound.
    fn stopped(ending: Ending, steps: usize, bound: u64) -> Self
        ensures { solved_as result ≡ stopped_solved (ending_as ending) steps bound }
    {
        Solved {
            ending,
            steps,
            bound,
            plan: [0u8; MAX_VARIABLES],
        }
    }
}

/// The value of what was planned or refused: here alone a refusal becomes an ending.
fn settled(planned: Result<Solved, Refusal>) -> Solved
    ensures { solved_as result ≡ value_of planned }
{
    match planned {
        Ok(solved) => solved,
        Err(refusal) => Solved::stopped(Ending::Refused(refusal), 0, 0),
    }
}

/// A finished run: the plan, or why there is none.
#[tactic(auto, unfolding(crate::specs::Solving::finished_solved))]
fn finished(table: &[u32], steps: usize, bound: u64) -> Result<Solved, Refusal>
    ensures { value_of result ≡ finished_solved table.now steps bound }
{
    let mut plan = [0u8; MAX_VARIABLES];
    assignment::plan(table, &mut plan)?;
    Ok(Solved {
        ending: Ending::Planned,
        steps,
        bound,
        plan,
    })
}

/// What a run came to, with the table that it left.
#[tactic(auto, unfolding(crate::specs::Solving::ended_solved))]
fn ended(table: &[u32], ran: RunAnswer) -> Result<Solved, Refusal>
    ensures { value_of result ≡ ended_solved table.now ran.steps ran.bound (outcome_of ran.outcome) }
{
    match ran.outcome {
        Outcome::Done => finished(table, ran.steps, ran.bound),
        Outcome::Paused => Ok(Solved::stopped(Ending::Paused, ran.steps, ran.bound)),
        Outcome::Refused(Refusal::TableFull) => {
            Ok(Solved::stopped(Ending::Full, ran.steps, ran.bound))
        }
        Outcome::Refused(refusal) => Err(refusal),
    }
}

/// A run on a table.
#[tactic(auto, unfolding(crate::specs::Solving::solve_table))]
fn plan_table(limit: usize, table: &mut [u32], steps: &mut [u32]) -> Result<Solved, Refusal>
    ensures { record { answer = value_of result; table = table.new; steps = steps.new } ≡ solve_table limit table.old steps.old }
{
    let ran = resolution::run(table, limit, steps);
    ended(table, ran)
}

/// An instance encoded in a table, and run.
#[tactic(auto, unfolding(crate::specs::Solving::solve_instance))]
fn plan_instance(
    instance: &[u32],
    limit: usize,
    table: &mut [u32],
    steps: &mut [u32],
) -> Result<Solved, Refusal>
    ensures { record { answer = value_of result; table = table.new; steps = steps.new } ≡ solve_instance instance.now limit table.old steps.old }
{
    encoding::encode(instance, table)?;
    plan_table(limit, table, steps)
}

/// A sheet made an instance, of which the front of its buffer is encoded and run.
#[tactic(auto, unfolding(crate::specs::Solving::solve_call))]
fn plan_sheet(
    sheet: &[u32],
    limit: usize,
    instance: &mut [u32],
    table: &mut [u32],
    steps: &mut [u32],
) -> Result<Solved, Refusal>
    ensures { record { answer = value_of result; instance = instance.new; table = table.new; steps = steps.new } ≡ solve_call sheet.now limit instance.old table.old steps.old }
{
    let long = making::make(sheet, instance)?;
    plan_instance(&instance[..long], limit, table, steps)
}

/// A sheet's bytes. Their length is judged before a word is read.
#[tactic(auto, unfolding(crate::specs::Solving::solve_bytes))]
fn plan_bytes(
    bytes: &[u8],
    limit: usize,
    instance: &mut [u32],
    table: &mut [u32],
    steps: &mut [u32],
) -> Result<Solved, Refusal>
    ensures { record { answer = value_of result; instance = instance.new; table = table.new; steps = steps.new } ≡ solve_bytes bytes.now limit instance.old table.old steps.old }
{
    if 4 * BUFFER_WORDS < bytes.len() {
        return Err(Refusal::TargetTooShort);
    }
    if bytes.len() % 4 != 0 {
        return Err(Refusal::Input(Fault::BadHead));
    }
    let mut sheet = [0u32; BUFFER_WORDS];
    let n = read_words(bytes, &mut sheet);
    plan_sheet(&sheet[..n], limit, instance, table, steps)
}

/// Plans a sheet in lent buffers: it is made an instance, of which the front of its buffer is encoded and run, with at most `limit` steps.
pub fn solve_in(
    sheet: &[u32],
    limit: usize,
    instance: &mut [u32],
    table: &mut [u32],
    steps: &mut [u32],
) -> Solved
    ensures returned { record { answer = solved_as result; instance = instance.new; table = table.new; steps = steps.new } ≡ solve_call sheet.now limit instance.old table.old steps.old }
{
    settled(plan_sheet(sheet, limit, instance, table, steps))
}

/// Plans a sheet's bytes in lent buffers. Over 64,000 bytes are refused as too many, and else a length that is no multiple of four as a fault.
pub fn solve_bytes(
    bytes: &[u8],
    limit: usize,
    instance: &mut [u32],
    table: &mut [u32],
    steps: &mut [u32],
) -> Solved
    ensures returned { record { answer = solved_as result; instance = instance.new; table = table.new; steps = steps.new } ≡ solve_bytes bytes.now limit instance.old table.old steps.old }
{
    settled(plan_bytes(bytes, limit, instance, table, steps))
}

/// Plans a sheet's bytes in buffers of the program's own.
pub fn solve(bytes: &[u8]) -> Solved
    ensures returned { solved_as result ≡ solved_of bytes.now }
{
    let mut instance = [0u32; BUFFER_WORDS];
    let mut table = [0u32; TABLE_BUFFER];
    let mut steps = [0u32; BUFFER_WORDS];
    solve_bytes(bytes, STEP_LIMIT, &mut instance, &mut table, &mut steps)
}
