// Clauses by value: twelve signs in four blocks of 24 bits, so that union and comparison take four operations and a row's words need no unpacking.
#![tactic(auto)]

ghost use Rattle.std.specs.Prelude.{◌≡◌, List, ℕ, ◌<◌, ◌≤◌, ◌-◌, ◌/◌, ◌%◌, ◌+◌, ◌*◌, get_or, set, replicate};
ghost use Rattle.std.specs.Int.Bits.{bit_and};
ghost use Rattle.wcsp.specs.Clause.{ValidClause, tautology, same, bucket};
ghost use Rattle.wcsp.specs.Rule.{joined, others, nested, clashing, permitted};
ghost use Rattle.words.specs.Layout.{unpacked};
ghost use Rattle.clause.specs.Packed.{any_equal, signs_of, FitsBlocks, Holds, FullSigns};

#[derive(Clone, Copy)]
pub struct Clause {
    pub a: u32,
    pub b: u32,
    pub c: u32,
    pub d: u32,
}

/// The sign at place k of a block.
fn sign_in(block: u32, k: u32) -> u32
    requires { (block < 16777216) × (k < 3) }
    ensures { (result ≡ get_or (unpacked block) k 0) × (result < 256) }
{
    match k {
        0 => block % 256,
        1 => block / 256 % 256,
        2..=4294967295 => block / 65536,
    }
}

/// The block with the sign at place k replaced.
fn block_with(block: u32, k: u32, sign: u32) -> u32
    requires { (block < 16777216) × (k < 3) × (sign < 256) }
    ensures { (unpacked result ≡ set (unpacked block) k sign) × (result < 16777216) }
{
    match k {
        0 => block / 256 * 256 + sign,
        1 => block / 65536 * 65536 + sign * 256 + block % 256,
        2..=4294967295 => sign * 65536 + block % 65536,
    }
}

/// Some sign of the block is the full one beside it.
fn block_full(x: u32, full: u32) -> bool
    requires { (x < 16777216) × (full < 16777216) }
    ensures { result ≡ any_equal (unpacked x) (unpacked full) }
{
    if x % 256 == full % 256 {
        return true;
    }
    if x / 256 % 256 == full / 256 % 256 {
        return true;
    }
    x / 65536 == full / 65536
}

/// The place of the block's first sign that is not 0, 3 if there is none.
fn first_in(block: u32) -> u32
    requires { block < 16777216 }
    ensures { (result ≡ bucket (unpacked block)) × (result ≤ 3) }
{
    if block % 256 != 0 {
        return 0;
    }
    if block % 65536 != 0 {
        return 1;
    }
    if block != 0 {
        return 2;
    }
    3
}

/// One sign lies within the other, either way round.
pub fn nest(s: u32, t: u32) -> bool
    ensures { result ≡ nested s t }
{
    let met = s & t;
    if met == s {
        return true;
    }
    met == t
}

impl Clause {
    /// The clause with no literal.
    pub fn empty() -> Self
        ensures { Holds result (replicate 12 0) }
    {
        Self {
            a: 0,
            b: 0,
            c: 0,
            d: 0,
        }
    }

    pub fn sign(self, v: u32) -> u32
        requires { FitsBlocks self × (v < 12) }
        ensures { (result ≡ get_or (signs_of self) v 0) × (result < 256) }
    {
        let k = v % 3;
        match v {
            0..=2 => sign_in(self.a, k),
            3..=5 => sign_in(self.b, k),
            6..=8 => sign_in(self.c, k),
            9..=4294967295 => sign_in(self.d, k),
        }
    }

    /// The clause with one variable's sign replaced.
    pub fn replaced(mut self, v: u32, sign: u32) -> Self
        requires { FitsBlocks self × (v < 12) × (sign < 256) }
        ensures { Holds result (set (signs_of self) v sign) }
    {
        let k = v % 3;
        match v {
            0..=2 => {
                self.a = block_with(self.a, k, sign);
                self
            }
            3..=5 => {
                self.b = block_with(self.b, k, sign);
                self
            }
            6..=8 => {
                self.c = block_with(self.c, k, sign);
                self
            }
            9..=4294967295 => {
                self.d = block_with(self.d, k, sign);
                self
            }
        }
    }

    /// The clause with one variable's sign complemented within the full sign.
    pub fn complemented(mut self, v: u32, full: u32) -> Self
        requires { FitsBlocks self × (v < 12) × (get_or (signs_of self) v 0 ≤ full) × (full < 256) }
        ensures { Holds result (set (signs_of self) v (full - get_or (signs_of self) v 0)) }
    {
        self = self.replaced(v, full - self.sign(v));
        self
    }

    /// The union with another clause: the signs joined at every variable.
    pub fn union(mut self, other: Clause) -> Self
        requires { FitsBlocks self × FitsBlocks other }
        ensures { Holds result (joined (signs_of self) (signs_of other)) }
    {
        self.a = self.a | other.a;
        self.b = self.b | other.b;
        self.c = self.c | other.c;
        self.d = self.d | other.d;
        self
    }

    /// The union but at one variable, where the signs meet.
    pub fn met_at(self, other: Clause, v: u32) -> Self
        requires { FitsBlocks self × FitsBlocks other × (v < 12) }
        ensures { Holds result (set (joined (signs_of self) (signs_of other)) v (bit_and (get_or (signs_of self) v 0) (get_or (signs_of other) v 0))) }
    {
        self.union(other).replaced(v, self.sign(v) & other.sign(v))
    }

    /// Some sign is full.
    pub fn is_tautology(self, fulls: Clause) -> bool
        requires { FitsBlocks self × FitsBlocks fulls }
        ensures { (ds : List ℕ) → FullSigns fulls ds → result ≡ tautology ds (signs_of self) }
    {
        if block_full(self.a, fulls.a) {
            return true;
        }
        if block_full(self.b, fulls.b) {
            return true;
        }
        if block_full(self.c, fulls.c) {
            return true;
        }
        block_full(self.d, fulls.d)
    }

    /// The lowest variable present, 12 if there is none.
    pub fn lowest(self) -> u32
        requires { FitsBlocks self }
        ensures { (result ≡ bucket (signs_of self)) × (result ≤ 12) }
    {
        if self.a != 0 {
            return first_in(self.a);
        }
        if self.b != 0 {
            return 3 + first_in(self.b);
        }
        if self.c != 0 {
            return 6 + first_in(self.c);
        }
        9 + first_in(self.d)
    }

    pub fn equals(self, other: Clause) -> bool
        requires { FitsBlocks self × FitsBlocks other }
        ensures { result ≡ same (signs_of self) (signs_of other) }
    {
        if self.a != other.a {
            return false;
        }
        if self.b != other.b {
            return false;
        }
        if self.c != other.c {
            return false;
        }
        self.d == other.d
    }

    /// At some variable other than v the union of two valid clauses is full. Both are present there, since neither sign alone is full.
    pub fn clashes(self, other: Clause, v: u32, fulls: Clause) -> bool
        requires { FitsBlocks self × FitsBlocks other × FitsBlocks fulls × (v < 12) }
        ensures { (ds : List ℕ) → FullSigns fulls ds → ValidClause ds (signs_of self) → ValidClause ds (signs_of other) → result ≡ clashing ds (others v (signs_of self)) (others v (signs_of other)) }
    {
        self.union(other).replaced(v, 0).is_tautology(fulls)
    }

    /// Two valid clauses may be resolved on v.
    pub fn may_resolve(self, other: Clause, v: u32, fulls: Clause) -> bool
        requires { FitsBlocks self × FitsBlocks other × FitsBlocks fulls × (v < 12) }
        ensures { (ds : List ℕ) → FullSigns fulls ds → ValidClause ds (signs_of self) → ValidClause ds (signs_of other) → result ≡ permitted ds v (signs_of self) (signs_of other) }
    {
        if nest(self.sign(v), other.sign(v)) {
            return false;
        }
        !self.clashes(other, v, fulls)
    }
}
