// Instances, read in one pass: the fault nearest the front decides. What reads the head and the sizes serves sheets too.
#![tactic(auto)]

pub mod front;

ghost use Rattle.std.specs.Prelude.{◌≡◌, length, IfOk};
ghost use Rattle.fields.specs.Numbers.{fault_in};
ghost use Rattle.input.specs.Instance.{instance_fault, sizes_of, entries_of};
ghost use Rattle.input.specs.Calls.{validated_of, validate_call};

use fields::Sizes;
use fields::refusals::Fault;
use reader::Reader;

/// An accepted instance.
#[derive(Clone, Copy)]
pub struct Instance {
    /// The sizes of its variables.
    pub sizes: Sizes,
    /// How many entries it has.
    pub entries: u32,
}

/// The test of an instance; the faulty word nearest the front decides.
#[tactic(auto, using(crate::proofs::Heads::validated_is, crate::proofs::Heads::head_bounds, crate::proofs::Heads::head_good, crate::proofs::Heads::head_bad))]
pub fn validate(words: &[u32]) -> Result<Instance, Fault>
    ensures fault { fault_in result ≡ instance_fault words.now }
    ensures sizes { IfOk result (λ i. i.sizes.items ≡ sizes_of words.now) }
    ensures entries { IfOk result (λ i. i.entries ≡ length (entries_of words.now)) }
    ensures returned { validated_of result ≡ validate_call words.now }
{
    let mut reader = Reader::over(words);
    let n = front::read_head(&mut reader)?;
    let sizes = front::read_sizes(&mut reader, n as usize)?;
    let entries = entries::scan_entries(reader, &sizes, 0)?;
    Ok(Instance { sizes, entries })
}
