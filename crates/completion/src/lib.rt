// The complete call: the best values for the first variables where those of the last ones are fixed, from a table in which no pair is left.
#![tactic(auto)]

ghost use Rattle.std.specs.Prelude.{◌≡◌, true, List, ℕ, ◌+◌, ◌*◌, ◌≤◌, length, drop};
ghost use Rattle.wcsp.specs.Rebuild.{tail_weight};
ghost use Rattle.clause.specs.Packed.{signs_of};
ghost use Rattle.rows.specs.Raw.{row_width};
ghost use Rattle.table.specs.Meaning.{variables_of, table_sizes, rows_from};
ghost use Rattle.table.specs.Valid.{valid_table};
ghost use Rattle.assignment.specs.Chosen.{Carries};
ghost use Rattle.fields.specs.Answers.{answer_of};
ghost use Rattle.completion.specs.Calls.{complete_call};
ghost use Rattle.completion.specs.Fixed.{Carrying};
ghost use Rattle.completion.specs.Limited.{limited_sum};

use clause::Clause;
use fields::refusals::Refusal;

/// The clause that carries the fixed values, if there is exactly one in range for each variable from `k` on.
fn carry(t: &[u32], n: usize, k: usize, fixed: &[u8]) -> Option<Clause>
    requires { (valid_table t.now ≡ true) × (n ≡ variables_of t.now) }
    ensures { Carrying (table_sizes t.now) k fixed.now result }
{
    if n < k {
        return None;
    }
    if fixed.len() != n - k {
        return None;
    }
    let mut values = Clause::empty();
    for i in (k..n).rev() {
        let value = u32::from(fixed[i - k]);
        if words::payload(t[i + 1]) <= value {
            return None;
        }
        values = values.replaced(i as u32, 1 << value);
    }
    Some(values)
}

/// The weight of the rows without variables below `k` that the carried values falsify, if it is at most the greatest weight of a row. A sum above
/// that ends the loop, so it never overflows.
fn tail_weight(t: &[u32], base: usize, count: usize, k: u32, values: Clause) -> Option<u64>
    requires { (base + row_width * count ≤ length t.now) × (k ≤ 12) }
    ensures { (q : List ℕ) → Carries (signs_of values) k q → result ≡ limited_sum (tail_weight k q (rows_from count (drop base t.now))) }
{
    let mut sum = 0;
    for i in 0..count {
        let x = rows::clause_of(t, base, i);
        if k <= x.lowest() && assignment::apart(x, values) {
            sum += rows::weight_of(t, base, i);
            if rows::MAX_WEIGHT < sum {
                return None;
            }
        }
    }
    Some(sum)
}

/// Completes an assignment whose values from variable `k` on are fixed, from a table in which no pair is left: writes the best values below `k`
/// and the fixed ones, one byte for each variable, to the front of the target, and keeps the rest of it. The result is the cost.
///
/// # Errors
///
/// `BadTable`; `TargetTooShort` for fewer bytes than variables; `BadFixed` unless there is one fixed value in range for each variable from `k` on;
/// `PairLeft`; `WeightTooHigh` for a cost above the greatest weight of a row. The first of these decides, and the target is kept.
pub fn complete(t: &[u32], k: usize, fixed: &[u8], target: &mut [u8]) -> Result<u64, Refusal>
    ensures returned { record { answer = answer_of result; target = target.new } ≡ complete_call t.now k fixed.now target.old }
{
    let Some(shape) = table::check(t) else {
        return Err(Refusal::BadTable);
    };
    let n = shape.variables;
    if target.len() < n {
        return Err(Refusal::TargetTooShort);
    }
    let Some(values) = carry(t, n, k, fixed) else {
        return Err(Refusal::BadFixed);
    };
    if assignment::pair_left(t, shape) {
        return Err(Refusal::PairLeft);
    }
    let Some(cost) = tail_weight(t, n + 2, shape.count, k as u32, values) else {
        return Err(Refusal::WeightTooHigh);
    };
    // Byte by byte: `copy_from_slice` calls the C library's `memmove`, and the archive takes `memset` alone.
    fields::copy_bytes(target, k, fixed, fixed.len());
    assignment::rebuild(t, shape, k, values, target);
    Ok(cost)
}
