// The answer slice of an exported call: its fields are written to the front, as far as the slice goes.
#![tactic(auto)]

ghost use Rattle.std.specs.Prelude.{◌≡◌};
ghost use Rattle.answers.specs.Noted.{noted};

/// Writes the fields to the front of an answer, as far as it goes: fields that have no place are left out, and what lies behind the fields stays.
#[tactic(auto, using(crate::proofs::Noting::noted_none, crate::proofs::Noting::noted_step, crate::proofs::Noting::noted_past, crate::proofs::Noting::noted_all))]
pub fn note(answer: &mut [u64], fields: &[u64])
    ensures { answer.new ≡ noted answer.old fields.now }
{
    // Each place is tested by itself: a copy of the fields that have a place would call the C library's `memcpy`, and the archive takes `memset` alone.
    for i in 0..fields.len() {
        if i < answer.len() {
            answer[i] = fields[i];
        }
    }
}
