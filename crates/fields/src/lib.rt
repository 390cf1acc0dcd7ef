// What the crates above share on a field: its limits, its sizes and their words in front of a slice, a word's cost, assignments, and why a call is
// refused.
#![tactic(auto)]

pub mod refusals;

ghost use Rattle.std.specs.Prelude.{◌≡◌, ◌+◌, ◌<◌, ◌≤◌, length, take};
ghost use Rattle.std.proofs.lemmas.List.Edits.{sets};
ghost use Rattle.std.proofs.Math.Seq.{paste};
ghost use Rattle.fields.specs.Limits.{max_variables};
ghost use Rattle.fields.specs.Front.{front_words};
ghost use Rattle.fields.specs.Entries.{cost_of};
ghost use Rattle.fields.specs.Assignment.{is_assignment};

use bytelist::ByteList;
use words::Word;
use words::kinds::Kind;

/// The most variables of a field.
pub const MAX_VARIABLES: usize = 12;

/// The most values of a variable.
pub const MAX_VALUES: u32 = 8;

/// The most entries of a field.
pub const MAX_ENTRIES: u32 = 4096;

/// The greatest ordinary cost of an entry.
pub const MAX_COST: u32 = 65535;

/// What a forbidden entry costs.
pub const FORBIDDEN_COST: u32 = 268431361;

/// The sizes of a field's variables, one for each: how many values it can have, 1 to 8.
pub type Sizes = ByteList<MAX_VARIABLES>;

/// Writes the head and the size words of variables of these sizes to the front of a slice that they fit into.
#[tactic(auto, using(crate::proofs::Fronts::sizes_next, crate::proofs::Fronts::sizes_end))]
pub fn write_front(target: &mut [u32], sizes: &[u8])
    requires { (length sizes.now ≤ max_variables) × (length sizes.now + 1 ≤ length target.old) }
    ensures { target.new ≡ sets target.old 0 (front_words sizes.now) }
{
    target[0] = Kind::Head.word(sizes.len() as u32);
    for (i, size) in sizes.iter().enumerate() {
        target[i + 1] = Kind::Size.word(u32::from(*size));
    }
}

/// The first n of the bytes, put into the target from an index on.
pub fn copy_bytes(target: &mut [u8], at: usize, bytes: &[u8], n: usize)
    requires { (at + n ≤ length target.old) × (n ≤ length bytes.now) }
    ensures { target.new ≡ paste target.old at bytes.now n }
{
    let mut i = 0;
    while i < n {
        target[at + i] = bytes[i];
        i += 1;
    }
}

/// The cost that a word gives, 0 if it closes no entry.
#[tactic(auto, using(crate::proofs::Closing::cost_of_said))]
pub fn cost_of(word: u32) -> u32
    ensures { result ≡ cost_of word }
{
    match Word::from(word) {
        Word::Cost(cost) => cost,
        Word::Forbidden(_) => FORBIDDEN_COST,
        _ => 0,
    }
}

/// Whether a plan has one value for each variable, below the variable's size.
#[tactic(auto, using(crate::proofs::Assigning::assignment_long, crate::proofs::Assigning::assignment_all))]
pub fn is_assignment(sizes: &[u8], plan: &[u8]) -> bool
    ensures { result ≡ is_assignment sizes.now plan.now }
{
    plan.len() == sizes.len() && plan.iter().zip(sizes).all(|(value, size)| value < size)
}
