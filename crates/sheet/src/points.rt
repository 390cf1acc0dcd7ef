// Coordinates and positions as they stand in a sheet's words.
ghost use Rattle.std.specs.Prelude.{◌≡◌, ◌+◌, ◌<◌, ◌≤◌, length, get_or};
ghost use Rattle.distance.specs.Metres.{max_offset};
ghost use Rattle.words.specs.Layout.{payload_of};
ghost use Rattle.sheet.specs.Sheet.{coordinate_in, offset_of};
ghost use Rattle.sheet.specs.Accepted.{PlacedPoint};
ghost use Rattle.sheet.specs.Places.{point_of, point_at};

use crate::Place;

/// Where the values of one variable stand in a sheet: the index of the first's easting, and their number.
#[derive(Clone, Copy)]
pub struct Values {
    pub at: usize,
    pub size: usize,
}

/// The kinds of coordinate words.
pub const EASTING: u32 = 8;

pub const NORTHING: u32 = 9;

/// The coordinate of a word of a kind; none for a word of another kind.
pub fn coordinate(kind: u32, w: u32) -> Option<u32>
    ensures { result ≡ coordinate_in kind w }
{
    if words::kind(w) != kind {
        return None;
    }
    words::place(words::payload(w))
}

fn offset(kind: u32, w: u32) -> u32
    ensures { (result ≡ offset_of kind w) × (result ≤ max_offset) }
{
    let c = coordinate(kind, w);
    match c {
        Some(o) => o,
        None => 0,
    }
}

pub fn place_at(sheet: &[u32], at: usize) -> Place
    requires { at + 2 ≤ length sheet.now }
    ensures { (point_of result ≡ point_at sheet.now at) × PlacedPoint (point_of result) }
{
    let east = offset(EASTING, sheet[at]);
    let north = offset(NORTHING, sheet[at + 1]);
    Place {
        easting: east,
        northing: north,
    }
}

/// The values of the station whose size word stands at an index.
pub fn values_at(sheet: &[u32], from: usize) -> Values
    requires { from < length sheet.now }
    ensures { (result.at ≡ from + 1) × (result.size ≡ payload_of (get_or sheet.now from 0)) × (result.size < 268435456) }
{
    let size = words::payload(sheet[from]);
    Values {
        at: from + 1,
        size: size as usize,
    }
}
