// Lists of bytes of a fixed room, which lie in the value itself and are copied as a number is.
#![tactic(auto)]

ghost use Rattle.std.specs.Prelude.{◌≡◌, [], ◌∷◌, ◌++◌, ◌<◌, ◌≤◌, length, take};

use std::marker::Model;
use std::ops::DerefSlice;

/// A list of at most N bytes.
#[derive(Clone, Copy)]
pub struct ByteList<const N: usize> {
    bytes: [u8; N],
    count: usize,
}

// Clauses see the bytes of the list as its items, and of what lies behind them nothing is said.
impl<const N: usize> Model for ByteList<N> {
    ghost use Rattle.std.specs.Prelude.{◌≡◌, ◌≤◌, ◌++◌, length, take, drop};
    ghost use Rattle.std.proofs.Common.{arith, take-append-drop, length-take-le};
    ghost use Rattle.bytelist.specs.Items.{Items};

    ghost Value = { Items };

    ghost view = { λ b. record { items = take b.count b.bytes; spare = drop b.count b.bytes } };

    ghost invariant = { λ b. (b.count ≤ N) × (length b.bytes ≡ N) };

    ghost inverse = { λ i. record { bytes = i.items ++ i.spare; count = length i.items } };

    ghost inverse_ok = { λ b within i. record {
      bytes = take-append-drop b.count b.bytes i;
      count = length-take-le b.count b.bytes (omega (arith, within.0, within.1)) i;
    } };
}

impl<const N: usize> ByteList<N> {
    /// The list of no bytes.
    pub fn new() -> Self
        ensures { result.items ≡ [] }
    {
        ByteList {
            bytes: [0; N],
            count: 0,
        }
    }

    /// The first bytes of an array, so many.
    pub fn front(bytes: [u8; N], count: usize) -> Self
        requires { count ≤ N }
        ensures { result.items ≡ take count bytes.entry }
    {
        ByteList { bytes, count }
    }

    /// Puts a byte behind the last one.
    pub fn push(&mut self, byte: u8)
        requires { length self.old.items < N }
        ensures items { self.new.items ≡ self.old.items ++ byte ∷ [] }
    {
        self.bytes[self.count] = byte;
        self.count += 1;
    }

    /// How many bytes it has.
    pub fn len(&self) -> usize
        ensures value { result ≡ length self.now.items }
        ensures fits { result ≤ N }
    {
        self.as_slice().len()
    }

    /// The bytes.
    pub fn as_slice(&self) -> &[u8]
        ensures bytes { result.now ≡ self.now.items }
        ensures fits { length result.now ≤ N }
    {
        &self.bytes[..self.count]
    }
}

impl<const N: usize> DerefSlice for ByteList<N> {
    type Elem = u8;

    ghost deref_gives = { λ list bytes. (bytes ≡ list.items) × (length bytes ≤ N) };

    fn deref(&self) -> &[u8] {
        self.as_slice()
    }
}
