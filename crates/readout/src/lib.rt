// The panel's number: whole metres from a position to the place of an assignment's value.
#![tactic(auto)]

ghost use Rattle.std.specs.Prelude.{◌≡◌, ◌<◌, ◌≤◌, length, get_or};
ghost use Rattle.distance.specs.Metres.{max_offset};
ghost use Rattle.fields.specs.Answers.{answer_of};
ghost use Rattle.sheet.specs.Sheet.{sheet_fault, sheet_sizes};
ghost use Rattle.sheet.specs.Calls.{position_in, travel};
ghost use Rattle.readout.specs.Calls.{readout_call};

use fields::refusals::Refusal;
use sheet::points::{EASTING, NORTHING, coordinate};

/// Whole metres from a position to that of a value of an accepted sheet.
fn metres_to(sheet: &[u32], variable: u32, value: u8, east: u32, north: u32) -> u32
    requires sheet_value { sheet_fault sheet.now ≡ 0 }
    requires variable_in_bounds { (variable < length (sheet_sizes sheet.now)) × (value < get_or (sheet_sizes sheet.now) variable 0) }
    requires east_le_max_offset { (east ≤ max_offset) × (north ≤ max_offset) }
    ensures { result ≡ travel (record { easting = east; northing = north }) (position_in sheet.now variable value) }
{
    let place = sheet::position(sheet, variable, value as u32);
    distance::between(east, north, place.easting, place.northing)
}

/// The panel's number: whole metres from a position, given by its coordinate words, to the place of the plan's value of a variable.
///
/// # Errors
///
/// The sheet's fault; then `BadReadout` for a variable that the sheet lacks, a position out of range, or bytes that are no
/// assignment.
#[tactic(auto, using(crate::proofs::Answers::sheet_refused))]
pub fn readout(
    sheet: &[u32],
    plan: &[u8],
    variable: u32,
    easting: u32,
    northing: u32,
) -> Result<u32, Refusal>
    ensures returned { answer_of result ≡ readout_call sheet.now plan.now variable easting northing }
{
    let read = sheet::read_sheet(sheet)?;
    let sizes: &[u8] = &read.sizes;
    if sizes.len() <= variable as usize {
        return Err(Refusal::BadReadout);
    }
    let Some(east) = coordinate(EASTING, easting) else {
        return Err(Refusal::BadReadout);
    };
    let Some(north) = coordinate(NORTHING, northing) else {
        return Err(Refusal::BadReadout);
    };
    if !fields::is_assignment(sizes, plan) {
        return Err(Refusal::BadReadout);
    }
    Ok(metres_to(sheet, variable, plan[variable as usize], east, north))
}
