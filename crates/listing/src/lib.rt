// The lines of an assignment put into a buffer: each variable with its value and the whole metres to it.
#![tactic(auto)]

ghost use Rattle.std.specs.Prelude.{◌≡◌, ◌+◌, ◌≤◌, ◌<◌, length, get_or};
ghost use Rattle.words.specs.Layout.{payload_of};
ghost use Rattle.fields.specs.Limits.{max_variables};
ghost use Rattle.text.specs.Putting.{Put};
ghost use Rattle.sheet.specs.Sheet.{sheet_sizes};
ghost use Rattle.listing.specs.Listed.{metres_to, assignment_lines};
ghost use Rattle.listing.specs.Plans.{HoldsPlan};

pub use text::Text;

/// Whole metres to a variable's value from the value of the variable before it; 0 for the first.
fn metres_to(sheet: &[u32], plan: &[u8], v: usize) -> u32
    requires holds_plan { HoldsPlan sheet.now plan.now }
    requires v_in_bounds { (v < length (sheet_sizes sheet.now)) × (v < max_variables) }
    ensures { result ≡ metres_to sheet.now plan.now v }
{
    if v == 0 {
        return 0;
    }
    let last = v - 1;
    let start = sheet::position(sheet, last as u32, u32::from(plan[last]));
    let stop = sheet::position(sheet, v as u32, u32::from(plan[v]));
    distance::between(start.easting, start.northing, stop.easting, stop.northing)
}

/// How many variables a sheet has by its head; none where it has no words.
fn variables_of(sheet: &[u32]) -> usize
    ensures { result ≡ payload_of (get_or sheet.now 0 0) }
{
    let Some(&head) = sheet.first() else {
        return 0;
    };
    words::payload(head) as usize
}

/// Puts a line for each variable of an accepted sheet: its number, the plan's value, and the metres from the value before. A line takes
/// 64 bytes at most, and twelve 768.
pub fn put_assignment(sheet: &[u32], plan: &[u8], out: &mut [u8], at: usize) -> usize
    requires holds_plan { HoldsPlan sheet.now plan.now }
    requires at_in_bounds { at + 768 ≤ length out.old }
    ensures { Put out.old at (assignment_lines sheet.now plan.now) out.new result × (result ≤ at + 768) }
{
    let mut end = at;
    let count = variables_of(sheet);
    for v in 0..count {
        let metres = metres_to(sheet, plan, v);
        end = text::put_variable(out, end, v as u32, plan[v], metres);
    }
    end
}
