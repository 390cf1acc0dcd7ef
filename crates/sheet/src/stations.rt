// The stations of a sheet, each a station word and the positions of its values, and the number of legs between them.
ghost use Rattle.std.specs.Prelude.{◌≡◌, ◌+◌, ◌*◌, ◌≤◌, cond, map, length, drop, IfOk, OnOk};
ghost use Rattle.fields.specs.Limits.{max_variables};
ghost use Rattle.fields.specs.Numbers.{fault_in};
ghost use Rattle.reader.specs.Left.{words_left, Within};
ghost use Rattle.sheet.specs.Sheet.{leg_count, stations_from, behind_stations};
ghost use Rattle.sheet.specs.Phases.{good_stations, coordinate_next, station_next};

use crate::points::{EASTING, NORTHING, coordinate};
use fields::Sizes;
use fields::refusals::Fault;
use input::front::read_size;
use reader::Reader;

/// Reads a coordinate of a kind, as its offset.
///
/// # Errors
///
/// `BadVariable` where the next word is no such coordinate within the range, or there is none.
#[tactic(auto, using(reader::proofs::Within::next_within))]
fn read_coordinate(reader: &mut Reader, kind: u32) -> Result<u32, Fault>
    ensures coordinate { result ≡ coordinate_next kind (words_left reader.old) }
    ensures left { words_left reader.new ≡ drop 1 (words_left reader.old) }
    ensures within { Within reader.old → Within reader.new }
{
    let Some(word) = reader.next() else {
        return Err(Fault::BadVariable);
    };
    let Some(offset) = coordinate(kind, word) else {
        return Err(Fault::BadVariable);
    };
    Ok(offset)
}

/// Reads a station, its size and then the position of each of its values, and answers the size.
///
/// # Errors
///
/// `BadVariable` where a word is missing, of a wrong kind or out of range.
fn read_station(reader: &mut Reader) -> Result<u32, Fault>
    ensures size { result ≡ station_next (words_left reader.old) }
    ensures left { IfOk result (λ d. words_left reader.new ≡ drop (1 + 2 * d) (words_left reader.old)) }
    ensures within { Within reader.old → Within reader.new }
{
    let size = read_size(reader)?;
    for _ in 0..size {
        read_coordinate(reader, EASTING)?;
        read_coordinate(reader, NORTHING)?;
    }
    Ok(size)
}

/// Reads the stations of a sheet's n variables, and answers their sizes.
///
/// # Errors
///
/// `BadVariable` where a word is missing, of a wrong kind or out of range.
#[tactic(auto, unfolding(crate::specs::Phases::good_stations, crate::specs::Sheet::stations_from, crate::specs::Sheet::behind_stations))]
pub fn read_stations(reader: &mut Reader, n: usize) -> Result<Sizes, Fault>
    requires { n ≤ max_variables }
    ensures fault { fault_in result ≡ cond (good_stations n (words_left reader.old)) 0 2 }
    ensures sizes { IfOk result (λ v. v.items ≡ map length (stations_from n (words_left reader.old))) }
    ensures left { OnOk result (words_left reader.new ≡ behind_stations n (words_left reader.old)) }
    ensures within { Within reader.old → Within reader.new }
{
    let mut sizes = Sizes::new();
    for _ in 0..n {
        sizes.push(read_station(reader)? as u8);
    }
    Ok(sizes)
}

/// The number of legs between variables of these sizes: one for each value of a variable and each of the next.
pub fn count_legs(sizes: &[u8]) -> u32
    requires { length sizes.now ≤ max_variables }
    ensures { (result ≡ leg_count sizes.now) × (result ≤ 780300) }
{
    let mut legs: u32 = 0;
    for i in 1..sizes.len() {
        legs += u32::from(sizes[i - 1]) * u32::from(sizes[i]);
    }
    legs
}
