// Sheets, read in one pass as instances are, and the positions of their values.
#![tactic(auto)]

pub mod points;
pub mod stations;

ghost use Rattle.std.specs.Prelude.{◌≡◌, ◌-◌, ◌<◌, length, get_or, IfOk};
ghost use Rattle.fields.specs.Numbers.{fault_in};
ghost use Rattle.sheet.specs.Sheet.{sheet_fault, sheet_sizes, entry_words_of};
ghost use Rattle.sheet.specs.Calls.{sheet_call, position_in};
ghost use Rattle.sheet.specs.Reads.{read_of};
ghost use Rattle.sheet.specs.Places.{point_of};

use fields::Sizes;
use fields::refusals::Fault;
use input::front::read_head;
use reader::Reader;

/// A sheet that was read: the sizes of its variables, and the index of its first entry word.
#[derive(Clone, Copy)]
pub struct Sheet {
    pub sizes: Sizes,
    pub entries_at: usize,
}

/// The position of a value: its coordinates in centimetres counted from -1,000,000.
#[derive(Clone, Copy, Debug, PartialEq, Eq)]
pub struct Place {
    pub easting: u32,
    pub northing: u32,
}

/// Reads a sheet.
///
/// # Errors
///
/// The fault of the faulty word nearest the front, the legs between the variables counted with the entries.
pub fn read_sheet(words: &[u32]) -> Result<Sheet, Fault>
    ensures returned { read_of result ≡ sheet_call words.now }
    ensures fault { fault_in result ≡ sheet_fault words.now }
    ensures accepted { IfOk result (λ s. (s.sizes.items ≡ sheet_sizes words.now) × (s.entries_at ≡ length words.now - length (entry_words_of words.now))) }
{
    let mut reader = Reader::over(words);
    let variables = read_head(&mut reader)?;
    let sizes = stations::read_stations(&mut reader, variables as usize)?;
    let entries_at = words.len() - reader.left();
    entries::scan_entries(reader, &sizes, stations::count_legs(&sizes))?;
    Ok(Sheet { sizes, entries_at })
}

/// The position of a value of an accepted sheet.
pub fn position(sheet: &[u32], variable: u32, value: u32) -> Place
    requires sheet_value { sheet_fault sheet.now ≡ 0 }
    requires variable_in_bounds { (variable < length (sheet_sizes sheet.now)) × (value < get_or (sheet_sizes sheet.now) variable 0) }
    ensures { point_of result ≡ position_in sheet.now variable value }
{
    let mut from: usize = 1;
    for _ in 0..variable {
        let passed = points::values_at(sheet, from);
        from = passed.at + 2 * passed.size;
    }
    points::place_at(sheet, from + 1 + 2 * value as usize)
}
