// The program's work on slices: from a sheet's bytes to the text that is printed.
#![tactic(auto)]

ghost use Rattle.std.specs.Prelude.{◌≡◌, ◌*◌, ◌≤◌, length};
ghost use Rattle.text.specs.Putting.{Put};
ghost use Rattle.littleendian.specs.Words.{words_in};
ghost use Rattle.planning.specs.Values.{solved_as};
ghost use Rattle.planning.specs.Solving.{buffer_words};
ghost use Rattle.listing.specs.Plans.{HoldsPlan};
ghost use Rattle.printing.specs.Listable.{Listable};
ghost use Rattle.printing.specs.Printed.{plan_text, solved_text, printed};

use planning::{Ending, Solved};
use text::{Head, Stop, Text};

/// Puts the text of an assignment. The head and each of twelve lines take at most 64 bytes, 832 in all.
fn put_plan(sheet: &[u32], plan: &[u8], steps: usize, cost: u64, out: &mut [u8]) -> usize
    requires holds_plan { HoldsPlan sheet.now plan.now }
    requires in_bounds { 832 ≤ length out.old }
    ensures { Put out.old 0 (plan_text sheet.now plan.now steps cost) out.new result × (result ≤ 832) }
{
    let head = text::put_head(out, 0, Head::Plan, cost, steps);
    listing::put_assignment(sheet, plan, out, head)
}

/// Puts the text of an assignment for a sheet's bytes, whose words are read into a local buffer.
fn put_planned(bytes: &[u8], plan: &[u8], steps: usize, cost: u64, out: &mut [u8]) -> usize
    requires holds_plan { HoldsPlan (words_in bytes.now) plan.now }
    requires bytes_len_bound { (length bytes.now ≤ 4 * buffer_words) × (832 ≤ length out.old) }
    ensures { Put out.old 0 (plan_text (words_in bytes.now) plan.now steps cost) out.new result × (result ≤ 832) }
{
    let mut words = [0u32; planning::BUFFER_WORDS];
    let n = littleendian::read_words(bytes, &mut words);
    put_plan(&words[..n], plan, steps, cost, out)
}

/// Puts the text of what a sheet's bytes came to, in whatever buffers: 832 bytes at most.
pub fn put_solved(bytes: &[u8], solved: Solved, out: &mut [u8]) -> usize
    requires listable { Listable bytes.now (solved_as solved) }
    requires in_bounds { 832 ≤ length out.old }
    ensures { Put out.old 0 (solved_text (words_in bytes.now) (solved_as solved)) out.new result × (result ≤ 832) }
{
    let steps = solved.steps;
    let bound = solved.bound;
    match solved.ending {
        Ending::Planned => put_planned(bytes, &solved.plan, steps, bound, out),
        Ending::Refused(refusal) => text::put_refused(out, 0, refusal.number()),
        Ending::Paused => text::put_stopped(out, 0, Stop::Paused, steps, bound),
        Ending::Full => text::put_stopped(out, 0, Stop::Full, steps, bound),
    }
}

/// The text for a sheet's bytes.
pub fn plan_text(bytes: &[u8]) -> Text
    ensures returned { result.items ≡ printed bytes.now }
{
    let mut out = [0u8; 1024];
    let solved = planning::solve(bytes);
    let length = put_solved(bytes, solved, &mut out);
    Text::front(out, length)
}
