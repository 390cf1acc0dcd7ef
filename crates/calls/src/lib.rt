// The driver: makes the calls that a list of words asks for, one after the other, on a table that it encodes first. Demand 3 is its contract.
#![tactic(auto)]

ghost use Rattle.std.specs.Prelude.{◌≡◌, ◌≤◌, length, take, drop};
ghost use Rattle.calls.specs.Calls.{run_asked, plan_asked, after_call};
ghost use Rattle.calls.specs.Driver.{target_after, drive_word, driven_as, Drives};
ghost use Rattle.calls.specs.Asks.{ask_of};
ghost use Rattle.calls.specs.Slices.{state_in, step_in, driving_in, Leaves, LeavesAll};

use fields::refusals::Refusal;

/// What a call word asks for: data from outside, so a match on it makes the call.
#[derive(Clone, Copy, Debug, PartialEq, Eq)]
enum Ask {
    /// A step.
    Step,
    /// A run of at most so many steps, and how many free words it may write to.
    Run(usize, usize),
    /// A plan call, and how many bytes of the target it may write to.
    Plan(usize),
    /// No call.
    Nothing,
}

impl From<u32> for Ask {
    ghost from_gives = { λ w r. r ≡ ask_of w };

    #[tactic(auto, unfolding(crate::specs::Asks::ask_of))]
    fn from(w: u32) -> Ask {
        let p = words::payload(w);
        match words::kind(w) {
            0 => Ask::Step,
            1 => Ask::Run((p / 16384) as usize, (p % 16384) as usize),
            2 => Ask::Plan(p as usize),
            _ => Ask::Nothing,
        }
    }
}

/// A step call, if there is a place for its word. The result is how many step words there are then.
fn step_into(t: &mut [u32], out: &mut [u32], made: usize) -> usize
    requires { made ≤ length out.old }
    ensures { Leaves out.old made (step_in t.old out.old made) t.new out.new result }
{
    if made == out.len() {
        return made;
    }
    match resolution::step(t) {
        Ok(Some(w)) => {
            out[made] = w;
            made + 1
        }
        Ok(None) => made,
        Err(_) => made,
    }
}

/// A run that writes to the free words, at most as many of them as it is lent. The result is how many step words there are then.
fn run_into(t: &mut [u32], out: &mut [u32], made: usize, limit: usize, room: usize) -> usize
    requires { made ≤ length out.old }
    ensures { Leaves out.old made (after_call (state_in t.old out.old made) (run_asked limit (take room (drop made out.old)))) t.new out.new result }
{
    let end = made + room.min(out.len() - made);
    let ran = resolution::run(t, limit, &mut out[made..end]);
    made + ran.steps
}

/// A plan call on the front of the target.
fn plan_into(t: &[u32], target: &mut [u8], room: usize)
    ensures { target.new ≡ target_after t.now target.old (plan_asked (take room target.old)) }
{
    let end = room.min(target.len());
    // A refused plan leaves the target as it was.
    let _ = assignment::plan(t, &mut target[..end]);
}

/// The call that a word asks for. The result is how many step words there are then.
fn make_call(t: &mut [u32], out: &mut [u32], made: usize, target: &mut [u8], w: u32) -> usize
    requires { made ≤ length out.old }
    ensures { LeavesAll out.old made (drive_word out.old (driving_in t.old out.old made target.old) w) t.new out.new result target.new }
{
    match Ask::from(w) {
        Ask::Step => step_into(t, out, made),
        Ask::Run(limit, room) => run_into(t, out, made, limit, room),
        Ask::Plan(room) => {
            plan_into(t, target, room);
            made
        }
        Ask::Nothing => made,
    }
}

/// Encodes the instance, then makes the calls, and answers the steps that they made. Where the encoding is good, the weight of falsified clauses
/// equals the instance's cost for every plan, and what else `UpheldFrom` says holds, of the table and of the derivation in front of `out`.
///
/// # Errors
///
/// Those of the encoding; no call is made then.
pub fn drive(
    instance: &[u32],
    t: &mut [u32],
    calls: &[u32],
    out: &mut [u32],
    target: &mut [u8],
) -> Result<usize, Refusal>
    ensures driven { Drives instance.now t.old calls.now out.old target.old (record { answer = driven_as result; table = t.new; out = out.new; target = target.new }) }
{
    encoding::encode(instance, t)?;
    let mut made = 0;
    for &w in calls {
        made = make_call(t, out, made, target, w);
    }
    Ok(made)
}
