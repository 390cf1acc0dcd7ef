// The hunt for the next pair: bucket by bucket, taken up within a bucket at the first row that can have a partner.
#![tactic(auto)]

ghost use Rattle.std.specs.Prelude.{◌≡◌, List, ℕ, ◌+◌, ◌-◌, ◌*◌, ◌<◌, ◌≤◌, length, get_or, drop};
ghost use Rattle.wcsp.specs.Clause.{ValidClause, bucket};
ghost use Rattle.wcsp.specs.Row.{ValidRows};
ghost use Rattle.wcsp.specs.Resolve.{partner, pair_in, pair_from};
ghost use Rattle.clause.specs.Packed.{signs_of, FitsBlocks, FullSigns};
ghost use Rattle.rows.specs.Raw.{row_width, raw_at, clause_in};
ghost use Rattle.table.specs.Meaning.{rows_from};
ghost use Rattle.hunt.specs.Hunt.{found_of, hunted_of, Cleared};

use clause::Clause;

/// The pair that a hunt finds.
#[derive(Clone, Copy, Debug, PartialEq, Eq)]
pub struct Next {
    /// How many buckets the hunt passed over.
    pub passed: u32,
    /// The pair's first row.
    pub first: usize,
    /// Its second row, behind the first.
    pub second: usize,
}

/// The sign of row k at variable v, from one word of the row.
fn sign_at(t: &[u32], base: usize, k: usize, v: u32) -> u32
    requires { (base + row_width * k + row_width ≤ length t.now) × (v < 12) }
    ensures { result ≡ get_or (signs_of (clause_in (raw_at t.now (base + row_width * k)))) v 0 }
{
    let at = base + rows::WIDTH * k + (v / 3) as usize;
    (t[at] >> (8 * (v % 3))) % 256
}

/// The first row from `from` on, of bucket v, that may be resolved on v with x, whose sign there is given. The signs at v tell most rows apart.
fn seek(
    t: &[u32],
    base: usize,
    count: usize,
    x: Clause,
    v: u32,
    sign: u32,
    from: usize,
    fulls: Clause,
) -> Option<usize>
    requires { (base + row_width * count ≤ length t.now) × FitsBlocks x × FitsBlocks fulls × (v < 12) × (sign ≡ get_or (signs_of x) v 0) }
    ensures { let rs = rows_from count (drop base t.now) in (ds : List ℕ) → FullSigns fulls ds → ValidRows ds rs → ValidClause ds (signs_of x) → bucket (signs_of x) ≡ v → result ≡ found_of (partner ds v (signs_of x) from (drop from rs)) }
{
    for j in from..count {
        if !clause::nest(sign, sign_at(t, base, j, v)) {
            let y = rows::clause_of(t, base, j);
            if y.lowest() == v && !x.clashes(y, v, fulls) {
                return Some(j);
            }
        }
    }
    None
}

/// The least pair of bucket v. No row below `skip` goes with any, and row `skip` with none below `from`.
fn pair_in(
    t: &[u32],
    base: usize,
    count: usize,
    v: u32,
    skip: usize,
    from: usize,
    fulls: Clause,
) -> Option<Next>
    requires { (base + row_width * count ≤ length t.now) × FitsBlocks fulls × (v < 12) }
    ensures { let rs = rows_from count (drop base t.now) in (ds : List ℕ) → FullSigns fulls ds → ValidRows ds rs → Cleared ds v skip from rs → result ≡ hunted_of v (pair_in ds v 0 rs) }
{
    let mut least = from;
    for i in skip..count {
        let sign = sign_at(t, base, i, v);
        if sign != 0 {
            let x = rows::clause_of(t, base, i);
            if x.lowest() == v {
                let next = least.max(i + 1);
                let found = seek(t, base, count, x, v, sign, next, fulls);
                if let Some(j) = found {
                    return Some(Next {
                        passed: 0,
                        first: i,
                        second: j,
                    });
                }
            }
        }
        least = 0;
    }
    None
}

/// The least pair of the lowest bucket from v on that has one, whatever rows of lower buckets there are. `skip` and `from` are those of `pair_in`, for bucket v alone.
pub fn hunt(
    t: &[u32],
    base: usize,
    count: usize,
    v: u32,
    skip: usize,
    from: usize,
    fulls: Clause,
) -> Option<Next>
    requires { (base + row_width * count ≤ length t.now) × FitsBlocks fulls × (v ≤ 12) }
    ensures { let rs = rows_from count (drop base t.now) in (ds : List ℕ) → FullSigns fulls ds → ValidRows ds rs → Cleared ds v skip from rs → result ≡ hunted_of v (pair_from ds (length ds - v) v rs) }
{
    let mut first = skip;
    let mut second = from;
    for s in v..12 {
        let found = pair_in(t, base, count, s, first, second, fulls);
        if let Some(pair) = found {
            return Some(Next {
                passed: s - v,
                ..pair
            });
        }
        first = 0;
        second = 0;
    }
    None
}
