// The legs of a sheet as the entries' words that an instance has for them.
ghost use Rattle.std.specs.Prelude.{◌≡◌, ◌+◌, ◌*◌, ◌<◌, ◌≤◌, length, drop};
ghost use Rattle.std.proofs.lemmas.List.Edits.{sets};
ghost use Rattle.fields.specs.Limits.{max_values};
ghost use Rattle.sheet.specs.Sheet.{points_from, leg_count, sheet_fault, sheet_sizes, positions_of};
ghost use Rattle.distance.specs.Metres.{max_metres};
ghost use Rattle.sheet.specs.Accepted.{PlacedPoint};
ghost use Rattle.making.specs.Made.{leg_words, all_leg_words, legs_to, legs_between, legs_from};
ghost use Rattle.sheet.specs.Places.{point_of};

use sheet::Place;
use sheet::points::{Values, place_at, values_at};

/// A leg's three words.
fn write_leg(target: &mut [u32], at: usize, variable: u32, value: u32, next: u32, metres: u32)
    requires { (at + 3 ≤ length target.old) × (variable < 15) × (value < max_values) × (next < max_values) × (metres ≤ max_metres) }
    ensures { target.new ≡ sets target.old at (leg_words (record { variable = variable; value = value; next_value = next; metres = metres })) }
{
    let first = words::binding(variable, value);
    let second = words::binding(variable + 1, next);
    let third = words::cost(metres);
    target[at] = first;
    target[at + 1] = second;
    target[at + 2] = third;
}

/// The legs from one position to those of the next variable's values; the index behind them.
fn write_legs_to(
    sheet: &[u32],
    variable: u32,
    value: u32,
    start: Place,
    next: Values,
    target: &mut [u32],
    at: usize,
) -> usize
    requires { (next.at + 2 * next.size ≤ length sheet.now) × (next.size ≤ max_values) × (variable < 15) × (value < max_values) × PlacedPoint (point_of start) × (at + 3 * next.size ≤ length target.old) }
    ensures value { result ≡ at + 3 * next.size }
    ensures target_after { target.new ≡ sets target.old at (all_leg_words (legs_to variable value (point_of start) 0 (points_from next.size (drop next.at sheet.now)))) }
{
    for b in 0..next.size {
        let stop = place_at(sheet, next.at + 2 * b);
        let metres = distance::between(start.easting, start.northing, stop.easting, stop.northing);
        write_leg(target, at + 3 * b, variable, value, b as u32, metres);
    }
    at + 3 * next.size
}

/// The legs between two variables; the index behind them.
fn write_legs_between(
    sheet: &[u32],
    variable: u32,
    these: Values,
    next: Values,
    target: &mut [u32],
    at: usize,
) -> usize
    requires { (these.at + 2 * these.size ≤ length sheet.now) × (these.size ≤ max_values) × (next.at + 2 * next.size ≤ length sheet.now) × (next.size ≤ max_values) × (variable < 15) × (at + 3 * (these.size * next.size) ≤ length target.old) }
    ensures value { result ≡ at + 3 * (these.size * next.size) }
    ensures target_after { target.new ≡ sets target.old at (all_leg_words (legs_between variable 0 (points_from these.size (drop these.at sheet.now)) (points_from next.size (drop next.at sheet.now)))) }
{
    let mut o = at;
    for a in 0..these.size {
        let start = place_at(sheet, these.at + 2 * a);
        o = write_legs_to(sheet, variable, a as u32, start, next, target, o);
    }
    o
}

/// Every leg of an accepted sheet of n variables; the index behind them.
pub fn write_legs(sheet: &[u32], n: usize, target: &mut [u32], at: usize) -> usize
    requires sheet_value { sheet_fault sheet.now ≡ 0 }
    requires n_value { (n ≡ length (sheet_sizes sheet.now)) × (at + 3 * leg_count (sheet_sizes sheet.now) ≤ length target.old) }
    ensures value { result ≡ at + 3 * leg_count (sheet_sizes sheet.now) }
    ensures target_after { target.new ≡ sets target.old at (all_leg_words (legs_from 0 (positions_of sheet.now))) }
{
    let mut from: usize = 1;
    let mut o = at;
    for i in 0..n.saturating_sub(1) {
        let these = values_at(sheet, from);
        let behind = these.at + 2 * these.size;
        let next = values_at(sheet, behind);
        o = write_legs_between(sheet, i as u32, these, next, target, o);
        from = behind;
    }
    o
}
