// The conclusions of two clauses resolved on a variable, in the rule's order, tautologies left out.
#![tactic(auto)]

ghost use Rattle.std.specs.Prelude.{◌≡◌, List, [], ◌∷◌, ◌++◌, ℕ, ◌+◌, ◌<◌, ◌≤◌, get_or};
ghost use Rattle.wcsp.specs.Clause.{ValidClause, kept};
ghost use Rattle.wcsp.specs.Rule.{others, excluding, conclusions};
ghost use Rattle.clause.specs.Packed.{signs_of, FitsBlocks, Holds, FullSigns};
ghost use Rattle.conclusions.specs.Buffer.{clauses_in, PackedBuffer, Below};

use clause::Clause;

/// Clause m of the buffer.
pub fn clause_at(buffer: &[u32; 104], m: usize) -> Clause
    requires { (m < 26) × PackedBuffer buffer.now }
    ensures { Holds result (get_or (clauses_in 26 buffer.now) m []) }
{
    let at = 4 * m;
    Clause {
        a: buffer[at],
        b: buffer[at + 1],
        c: buffer[at + 2],
        d: buffer[at + 3],
    }
}

/// A conclusion behind the k that the buffer has, unless it is a tautology.
fn keep(buffer: &mut [u32; 104], k: usize, x: Clause, fulls: Clause) -> usize
    requires { (k < 26) × FitsBlocks x × FitsBlocks fulls × PackedBuffer buffer.old }
    ensures { ((ds : List ℕ) → FullSigns fulls ds → clauses_in result buffer.new ≡ clauses_in k buffer.old ++ kept ds (signs_of x ∷ [])) × (result ≤ k + 1) × PackedBuffer buffer.new }
{
    if x.is_tautology(fulls) {
        return k;
    }
    let at = 4 * k;
    buffer[at] = x.a;
    buffer[at + 1] = x.b;
    buffer[at + 2] = x.c;
    buffer[at + 3] = x.d;
    k + 1
}

/// For each literal of y but that of v: x, the literals of y before it, and it complemented.
fn exclude(buffer: &mut [u32; 104], k: usize, x: Clause, y: Clause, v: u32, fulls: Clause) -> usize
    requires { (k ≤ 14) × FitsBlocks x × FitsBlocks y × FitsBlocks fulls × Below y fulls × (v < 12) × PackedBuffer buffer.old }
    ensures { ((ds : List ℕ) → FullSigns fulls ds → ValidClause ds (signs_of x) → ValidClause ds (signs_of y) → clauses_in result buffer.new ≡ clauses_in k buffer.old ++ kept ds (excluding ds (signs_of x) (others v (signs_of y)))) × (result ≤ k + 12) × PackedBuffer buffer.new }
{
    let mut running = x;
    let mut count = k;
    for b in 0..12 {
        let sign = y.sign(b);
        if sign != 0 && b != v {
            let literal = Clause::empty().replaced(b, sign);
            count = keep(
                buffer,
                count,
                running.union(literal.complemented(b, fulls.sign(b))),
                fulls,
            );
            running = running.union(literal);
        }
    }
    count
}

/// Puts the conclusions of two clauses resolved on v into the buffer: the clause met at v, the clause joined, and the two groups of those that
/// exclude one literal each. The answer is how many are no tautologies, at most 26.
pub fn conclude(buffer: &mut [u32; 104], x: Clause, y: Clause, v: u32, fulls: Clause) -> usize
    requires { FitsBlocks x × FitsBlocks y × FitsBlocks fulls × Below x fulls × Below y fulls × (v < 12) × PackedBuffer buffer.old }
    ensures { ((ds : List ℕ) → FullSigns fulls ds → ValidClause ds (signs_of x) → ValidClause ds (signs_of y) → clauses_in result buffer.new ≡ kept ds (conclusions ds v (signs_of x) (signs_of y))) × (result ≤ 26) × PackedBuffer buffer.new }
{
    let met = keep(buffer, 0, x.met_at(y, v), fulls);
    let joined = keep(buffer, met, x.union(y), fulls);
    let third = exclude(buffer, joined, x, y, v, fulls);
    exclude(buffer, third, y, x, v, fulls)
}
