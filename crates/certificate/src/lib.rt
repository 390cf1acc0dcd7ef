// The words of a certificate: the claim in front of the derivation, read and written.
#![tactic(auto)]

ghost use Rattle.std.specs.Prelude.{◌≡◌, true, ◌++◌, map, ◌+◌, ◌≤◌, length, drop};
ghost use Rattle.std.proofs.lemmas.List.Edits.{sets};
ghost use Rattle.words.specs.Layout.{value_in};
ghost use Rattle.fields.specs.Limits.{max_variables};
ghost use Rattle.certificate.specs.Certificate.{binding_words, claim_words, stated_variables, stated_plan, binds_in_order, has_claim};
ghost use Rattle.certificate.specs.Claim.{claim_of};
ghost use Rattle.certificate.specs.Theorems.{Claimable};

use words::kinds::Kind;

/// A cost's low word has the 28 bits below this, its high word those from it on.
const COST_UNIT: u64 = 268435456;

/// What the front of a certificate claims: so many variables and a cost, or nothing, since it has not the form.
#[derive(Clone, Copy)]
pub enum Claim {
    Stated(usize, u64),
    Nothing,
}

/// Each word binds the variable of its place.
fn binds_in_order(bindings: &[u32]) -> bool
    requires { length bindings.now ≤ max_variables }
    ensures { result ≡ binds_in_order 0 bindings.now }
{
    for v in 0..bindings.len() {
        let value = words::payload(bindings[v]) % 256;
        if 8 <= value {
            return false;
        }
        if bindings[v] != words::binding(v as u32, value) {
            return false;
        }
    }
    true
}

/// The claim in front of the words.
pub fn read_claim(certificate: &[u32]) -> Claim
    ensures { result ≡ claim_of certificate.now }
{
    if certificate.len() == 0 {
        return Claim::Nothing;
    }
    if words::kind(certificate[0]) != 1 {
        return Claim::Nothing;
    }
    let n = words::payload(certificate[0]) as usize;
    if 12 < n {
        return Claim::Nothing;
    }
    if certificate.len() < n + 3 {
        return Claim::Nothing;
    }
    if !binds_in_order(&certificate[1..n + 1]) {
        return Claim::Nothing;
    }
    let low = certificate[n + 1];
    let high = certificate[n + 2];
    if words::kind(low) != 6 {
        return Claim::Nothing;
    }
    if words::kind(high) != 12 {
        return Claim::Nothing;
    }
    Claim::Stated(
        n,
        words::payload(low) as u64 + words::payload(high) as u64 * COST_UNIT,
    )
}

/// The values that words bind, in front of a slice that they fit into, whose rest stays.
fn copy_values(bindings: &[u32], plan: &mut [u8])
    requires { length bindings.now ≤ length plan.old }
    ensures { plan.new ≡ map value_in bindings.now ++ drop (length bindings.now) plan.old }
{
    for v in 0..bindings.len() {
        plan[v] = (words::payload(bindings[v]) % 256) as u8;
    }
}

/// Reads the assignment of a certificate that has a claim, into the front of a slice that it fits into; the rest stays.
pub fn read_plan(certificate: &[u32], plan: &mut [u8])
    requires { (has_claim certificate.now ≡ true) × (stated_variables certificate.now ≤ length plan.old) }
    ensures { plan.new ≡ stated_plan certificate.now ++ drop (stated_variables certificate.now) plan.old }
{
    let n = words::payload(certificate[0]) as usize;
    copy_values(&certificate[1..n + 1], plan);
}

/// A binding word for each value, from an index on.
fn write_bindings(target: &mut [u32], at: usize, plan: &[u8])
    requires plan_in_bounds { at + length plan.now ≤ length target.old }
    requires claimable { Claimable plan.now 0 }
    ensures { target.new ≡ sets target.old at (binding_words 0 plan.now) }
{
    for v in 0..plan.len() {
        target[at + v] = words::binding(v as u32, u32::from(plan[v]));
    }
}

/// Writes the claim's words to the front of a slice that they fit into; their number.
pub fn write_claim(target: &mut [u32], plan: &[u8], cost: u64) -> usize
    requires plan_in_bounds { length plan.now + 3 ≤ length target.old }
    requires claimable { Claimable plan.now cost }
    ensures { (target.new ≡ sets target.old 0 (claim_words plan.now cost)) × (result ≡ length plan.now + 3) }
{
    let n = plan.len();
    target[0] = Kind::Head.word(n as u32);
    write_bindings(target, 1, plan);
    target[n + 1] = Kind::Weight.word((cost % COST_UNIT) as u32);
    target[n + 2] = Kind::High.word((cost / COST_UNIT) as u32);
    n + 3
}
