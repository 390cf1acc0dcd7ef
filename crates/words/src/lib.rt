// The words of every format: what a word says by its kind, the words that the planner writes, and three signs in one word.
#![tactic(auto)]

pub mod kinds;

ghost use Rattle.std.specs.Prelude.{◌≡◌, ◌+◌, ◌*◌, ◌<◌, ◌≤◌, ◌/◌, ◌%◌};
ghost use Rattle.words.specs.Layout.{kind_of, payload_of, binding_word, cost_word, packed, signs_word, weight_word, step_word, coordinate_payload, easting_word, northing_word, count_word, high_word};
ghost use Rattle.words.specs.Meaning.{word_of, coordinate_of};

use crate::kinds::Kind;

/// A word by its kind, with its fields. A payload with a set unnamed bit has a field out of range.
#[derive(Clone, Copy, Debug, PartialEq, Eq)]
pub enum Word {
    Head(u32),
    Size(u32),
    Binding(u32, u32),
    Cost(u32),
    Signs(u32, u32),
    Weight(u32),
    Step(u32, u32, u32),
    Easting(u32),
    Northing(u32),
    Count(u32),
    Forbidden(u32),
    High(u32),
    Unknown,
}

/// The number of a word's kind, 0 to 15.
pub fn kind(w: u32) -> u32
    ensures { (result ≡ kind_of w) × (result < 16) }
{
    w / 268435456
}

/// A word's payload, its low 28 bits.
pub fn payload(w: u32) -> u32
    ensures { (result ≡ payload_of w) × (result < 268435456) }
{
    w % 268435456
}

impl From<u32> for Word {
    ghost from_gives = { λ w r. r ≡ word_of w };

    fn from(w: u32) -> Word {
        let p = payload(w);
        match kind(w) {
            1 => Word::Head(p),
            2 => Word::Size(p),
            3 => Word::Binding(p / 256, p % 256),
            4 => Word::Cost(p),
            5 => Word::Signs(p / 16777216, p % 16777216),
            6 => Word::Weight(p),
            7 => Word::Step(p / 16777216, p / 4096 % 4096, p % 4096),
            8 => Word::Easting(p),
            9 => Word::Northing(p),
            10 => Word::Count(p),
            11 => Word::Forbidden(p),
            12 => Word::High(p),
            0 | 13..=4294967295 => Word::Unknown,
        }
    }
}

/// A coordinate's payload as its offset, the value in centimetres plus 1,000,000; none for a value below -1,000,000 or
/// above 1,000,000.
#[tactic(auto, using(crate::proofs::Coordinates::at_down))]
pub fn place(p: u32) -> Option<u32>
    requires { p < 268435456 }
    ensures { result ≡ coordinate_of p }
{
    if p <= 1000000 {
        return Some(p + 1000000);
    }
    if 267435456 <= p {
        return Some(p - 267435456);
    }
    None
}

/// A binding's word.
pub fn binding(variable: u32, value: u32) -> u32
    requires { (variable < 16) × (value < 8) }
    ensures { result ≡ binding_word variable value }
{
    Kind::Binding.word(variable * 256 + value)
}

pub fn cost(c: u32) -> u32
    requires { c < 268435456 }
    ensures { result ≡ cost_word c }
{
    Kind::Cost.word(c)
}

/// Three signs side by side in 24 bits.
pub fn pack(a: u32, b: u32, c: u32) -> u32
    requires { (a < 256) × (b < 256) × (c < 256) }
    ensures { (result ≡ packed a b c) × (result < 16777216) }
{
    a + b * 256 + c * 65536
}

/// The word of three packed signs, those of variables 3k, 3k + 1 and 3k + 2.
pub fn signs(k: u32, three: u32) -> u32
    requires { (k < 16) × (three < 16777216) }
    ensures { result ≡ signs_word k three }
{
    Kind::Signs.word(k * 16777216 + three)
}

pub fn weight(w: u32) -> u32
    requires { w < 268435456 }
    ensures { result ≡ weight_word w }
{
    Kind::Weight.word(w)
}

/// A step's word: its variable and its two rows.
pub fn step(variable: u32, first: u32, second: u32) -> u32
    requires { (variable < 16) × (first < 4096) × (second < 4096) }
    ensures { result ≡ step_word variable first second }
{
    Kind::Step.word(variable * 16777216 + first * 4096 + second)
}

/// The word of an easting, given as its offset.
pub fn easting(offset: u32) -> u32
    requires { offset ≤ 2000000 }
    ensures { result ≡ easting_word offset }
{
    Kind::Easting.word(wrapped(offset))
}

/// The word of a northing, given as its offset.
pub fn northing(offset: u32) -> u32
    requires { offset ≤ 2000000 }
    ensures { result ≡ northing_word offset }
{
    Kind::Northing.word(wrapped(offset))
}

/// The 28-bit two's complement of a coordinate that is given as its offset.
fn wrapped(offset: u32) -> u32
    requires { offset ≤ 2000000 }
    ensures { (result ≡ coordinate_payload offset) × (result < 268435456) }
{
    if 1000000 <= offset {
        return offset - 1000000;
    }
    268435456 + offset - 1000000
}

pub fn count(k: u32) -> u32
    requires { k < 268435456 }
    ensures { result ≡ count_word k }
{
    Kind::Count.word(k)
}

pub fn high(w: u32) -> u32
    requires { w < 268435456 }
    ensures { result ≡ high_word w }
{
    Kind::High.word(w)
}
