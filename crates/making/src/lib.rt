// The instance made from a sheet: its front, a leg for each pair of neighbouring values, then the sheet's entries.
#![tactic(auto)]

mod legs;

ghost use Rattle.std.specs.Prelude.{◌≡◌, ◌+◌, ◌-◌, ◌≤◌, length, drop, IfOk};
ghost use Rattle.std.proofs.lemmas.List.Edits.{sets};
ghost use Rattle.fields.specs.Answers.{answer_of};
ghost use Rattle.sheet.specs.Sheet.{sheet_fault, sheet_sizes, entry_words_of};
ghost use Rattle.making.specs.Made.{made_words};
ghost use Rattle.making.specs.Calls.{make_call};

use fields::refusals::Refusal;
use sheet::read_sheet;
use sheet::stations::count_legs;

/// Words copied over those of a target from an index on.
fn copy_words(words: &[u32], target: &mut [u32], at: usize)
    requires { at + length words.now ≤ length target.old }
    ensures { target.new ≡ sets target.old at words.now }
{
    // Word by word: `copy_from_slice` calls the C library's `memmove`, and the archive takes `memset` alone.
    for i in 0..words.len() {
        target[at + i] = words[i];
    }
}

/// The instance made from an accepted sheet that has words, in front of a target that it fits into.
fn write_instance(sheet: &[u32], sizes: &[u8], entries: usize, target: &mut [u32])
    requires sheet_value { (sheet_fault sheet.now ≡ 0) × (1 ≤ length sheet.now) }
    requires sizes_value { (sizes.now ≡ sheet_sizes sheet.now) × (entries ≡ length sheet.now - length (entry_words_of sheet.now)) × (length (made_words sheet.now) ≤ length target.old) }
    ensures { target.new ≡ sets target.old 0 (made_words sheet.now) }
{
    fields::write_front(target, sizes);
    let n = sizes.len();
    let behind = legs::write_legs(sheet, n, target, n + 1);
    copy_words(&sheet[entries..], target, behind);
}

/// Makes the instance of a sheet in front of a target, and answers the number of its words.
///
/// # Errors
///
/// The sheet's fault, then `TargetTooShort`; the target then stays as it was.
#[tactic(auto, using(crate::proofs::Making::empty_make))]
pub fn make(sheet: &[u32], target: &mut [u32]) -> Result<usize, Refusal>
    ensures returned { record { answer = answer_of result; target = target.new } ≡ make_call sheet.now target.old }
    ensures within { IfOk result (λ n. n ≤ length target.new) }
{
    // The instance of no words has none either.
    if sheet.len() == 0 {
        return Ok(0);
    }
    let read = read_sheet(sheet)?;
    let sizes: &[u8] = &read.sizes;
    let long = 1 + sizes.len() + 3 * count_legs(sizes) as usize + (sheet.len() - read.entries_at);
    if target.len() < long {
        return Err(Refusal::TargetTooShort);
    }
    write_instance(sheet, sizes, read.entries_at, target);
    Ok(long)
}
