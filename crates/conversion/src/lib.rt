//! Tables from last year: a table of five-word rows into one of six-word rows, and back. The source is only read; the target is written whole or not at all.
#![tactic(auto)]

pub mod rewriting;

ghost use Rattle.std.specs.Prelude.{◌≡◌};
ghost use Rattle.fields.specs.Answers.{answer_of};
ghost use Rattle.conversion.specs.Calls.{convert_call, to_six_call, to_five_call};

use fields::refusals::Refusal;
use table::forms::{Five, RowForm, Six};

/// A table of one form into one of another: the number of its rows. Refused: `BadTable`, a source that is no valid table of its form; `TargetTooShort`,
/// for head, sizes and row count; `WeightTooWide`, a weight that the target's form has no words for; `TableFull`, more rows than the target takes.
/// Else the whole target is the table of the same sizes and the same rows.
pub fn convert<S: RowForm, T: RowForm>(source: &[u32], target: &mut [u32]) -> Result<usize, Refusal>
    ensures { record { answer = answer_of result; target = target.new } ≡ convert_call S.form T.form source.now target.old }
{
    let Some(shape) = table::check_in::<S>(source) else {
        return Err(Refusal::BadTable);
    };
    let n = shape.variables;
    let count = shape.count;
    if target.len() < n + 2 {
        return Err(Refusal::TargetTooShort);
    }
    if rewriting::too_wide::<S>(source, n + 2, count, T::MAX_WEIGHT) {
        return Err(Refusal::WeightTooWide);
    }
    if table::rows_in(target.len(), n, T::WIDTH) < count {
        return Err(Refusal::TableFull);
    }
    rewriting::start(source, target, n);
    rewriting::write_rows::<S, T>(source, target, n + 2, count);
    target[n + 1] = words::count(count as u32);
    Ok(count)
}

/// Five words to six: `BadTable`, `TargetTooShort`, `TableFull`; every weight of a five-word row has its words in six.
pub fn to_six(source: &[u32], target: &mut [u32]) -> Result<usize, Refusal>
    ensures returned { record { answer = answer_of result; target = target.new } ≡ to_six_call source.now target.old }
{
    convert::<Five, Six>(source, target)
}

/// Six words back to five: `BadTable`, `TargetTooShort`, `WeightTooWide`, `TableFull`, tested in this order.
pub fn to_five(source: &[u32], target: &mut [u32]) -> Result<usize, Refusal>
    ensures returned { record { answer = answer_of result; target = target.new } ≡ to_five_call source.now target.old }
{
    convert::<Six, Five>(source, target)
}
