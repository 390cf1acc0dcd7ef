// The plan call: the rebuilt assignment of a table in which no pair is left.
#![tactic(auto)]

ghost use Rattle.std.specs.Prelude.{◌≡◌, true, List, ◌++◌, ℕ, suc, ◌+◌, ◌*◌, ◌<◌, ◌≤◌, length, drop};
ghost use Rattle.std.proofs.Math.Seq.{slice};
ghost use Rattle.wcsp.specs.Rebuild.{narrowed};
ghost use Rattle.clause.specs.Packed.{signs_of};
ghost use Rattle.rows.specs.Raw.{row_width};
ghost use Rattle.table.specs.Meaning.{variables_of, rows_from};
ghost use Rattle.table.specs.Valid.{valid_table};
ghost use Rattle.table.specs.Check.{shape_of};
ghost use Rattle.fields.specs.Numbers.{refusal_in};
ghost use Rattle.assignment.specs.Calls.{table_completion, plan_call};
ghost use Rattle.assignment.specs.Order.{is_left, table_pair};
ghost use Rattle.assignment.specs.Chosen.{disjoint, Carries, Ready};

use clause::Clause;
use fields::refusals::Refusal;
use table::Shape;

/// Whether the two clauses have no value in common at any variable.
#[tactic(auto, using(crate::proofs::Disjoint::disjoint_clauses))]
pub fn apart(x: Clause, y: Clause) -> bool
    ensures { result ≡ disjoint (signs_of x) (signs_of y) }
{
    x.a & y.a == 0 && x.b & y.b == 0 && x.c & y.c == 0 && x.d & y.d == 0
}

/// The full sign met with the signs at `k` of the rows of bucket `k` that the chosen higher values falsify.
fn narrow(t: &[u32], base: usize, count: usize, k: u32, chosen: Clause, full: u32) -> u32
    requires { (base + row_width * count ≤ length t.now) × (k < 12) }
    ensures { (q : List ℕ) → Carries (signs_of chosen) (suc k) q → result ≡ narrowed k q full (rows_from count (drop base t.now)) }
{
    let mut sign = full;
    for i in 0..count {
        let x = rows::clause_of(t, base, i);
        if x.lowest() == k && apart(x, chosen) {
            sign &= x.sign(k);
        }
    }
    sign
}

/// Writes the values below `k` into the target, from `k - 1` down: each the lowest that lies in every sign that counts. A clause carries the
/// chosen values' bits, first those of the values from `k` on, which stand in the target.
pub fn rebuild(t: &[u32], shape: Shape, k: usize, given: Clause, target: &mut [u8])
    requires { Ready t.now shape k given target.old }
    ensures { let n = variables_of t.now in target.new ≡ table_completion t.now k (slice k n target.old) ++ drop n target.old }
{
    let base = shape.variables + 2;
    let mut chosen = given;
    for i in (0..k).rev() {
        let v = i as u32;
        let sign = narrow(t, base, shape.count, v, chosen, shape.fulls.sign(v));
        let value = sign.trailing_zeros();
        target[i] = value as u8;
        chosen = chosen.replaced(v, 1 << value);
    }
}

/// Whether a pair is left in a valid table of this shape.
#[tactic(auto, using(crate::proofs::Hunting::left_at))]
pub fn pair_left(t: &[u32], shape: Shape) -> bool
    requires { (valid_table t.now ≡ true) × (shape ≡ shape_of t.now) }
    ensures { result ≡ is_left (table_pair t.now) }
{
    hunt::hunt(t, shape.variables + 2, shape.count, 0, 0, 0, shape.fulls).is_some()
}

/// Writes the rebuilt assignment of a table in which no pair is left, one byte for each variable, to the front of the target; the rest of the
/// target is kept.
///
/// # Errors
///
/// `BadTable`; `TargetTooShort` for fewer bytes than variables; `PairLeft`; `Forbidden` if the empty row weighs as much as a forbidden entry, or
/// more. The first of these decides, and the target is kept.
#[tactic(auto, using(crate::proofs::Planning::not_a_table, crate::proofs::Planning::variables_few, crate::proofs::Planning::too_short, crate::proofs::Planning::pair_left, crate::proofs::Planning::forbidden))]
pub fn plan(t: &[u32], target: &mut [u8]) -> Result<(), Refusal>
    ensures returned { record { number = refusal_in result; target = target.new } ≡ plan_call t.now target.old }
{
    let Some(shape) = table::check(t) else {
        return Err(Refusal::BadTable);
    };
    let n = shape.variables;
    if target.len() < n {
        return Err(Refusal::TargetTooShort);
    }
    if pair_left(t, shape) {
        return Err(Refusal::PairLeft);
    }
    if fields::FORBIDDEN_COST as u64 <= table::empty_weight(t, n + 2, shape.count) {
        return Err(Refusal::Forbidden);
    }
    rebuild(t, shape, n, Clause::empty(), target);
    Ok(())
}
