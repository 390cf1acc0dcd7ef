// A sheet planned with a certificate: from its bytes to the text that is printed and the certificate's bytes.
#![tactic(auto)]

ghost use Rattle.std.specs.Prelude.{◌≡◌, ◌+◌, ◌*◌, ◌≤◌, length, get_or, take};
ghost use Rattle.words.specs.Layout.{payload_of};
ghost use Rattle.littleendian.specs.Words.{words_in, bytes_of};
ghost use Rattle.planning.specs.Values.{solved_as};
ghost use Rattle.certificate.specs.Certificate.{certificate_words};
ghost use Rattle.certificate.specs.Theorems.{Claimable};
ghost use Rattle.verifying.specs.Verified.{most_derivation, certificate_room};
ghost use Rattle.certifying.specs.Certified.{solved_certificate, certified_text, certificate_of};
ghost use Rattle.certifying.specs.Certifiable.{Certifiable};

use planning::{BUFFER_WORDS, Ending, Solved};
use text::Text;
use verifying::WORK_WORDS;

/// A word for each step that is made at most.
const MOST_STEPS: usize = 200000;

/// What is written of a sheet.
#[derive(Clone, Copy)]
pub struct Certified {
    /// The text that is printed.
    pub text: Text,
    /// The bytes of the certificate; 0 where there is no plan.
    pub certificate: usize,
}

/// How many variables a sheet's bytes have by their head; none where there is no word.
#[tactic(auto, unfolding(littleendian::specs::Words::words_in))]
fn variables_in(bytes: &[u8]) -> usize
    ensures { result ≡ payload_of (get_or (words_in bytes.now) 0 0) }
{
    let Some(&word) = bytes.first_chunk::<4>() else {
        return 0;
    };
    words::payload(u32::from_le_bytes(word)) as usize
}

/// The bytes of a certificate, in front of a buffer that they fit into: those of the claim, then those of the steps.
fn put_certificate(plan: &[u8], cost: u64, steps: &[u32], out: &mut [u8]) -> usize
    requires claimable { Claimable plan.now cost }
    requires steps_in_bounds { 4 * (length plan.now + 3 + length steps.now) ≤ length out.old }
    ensures { (take result out.new ≡ bytes_of (certificate_words plan.now cost steps.now)) × (result ≤ length out.new) }
{
    let mut claim = [0u32; 15];
    let k = certificate::write_claim(&mut claim, plan, cost);
    littleendian::write_words(&claim[..k], out);
    littleendian::write_words(steps, &mut out[4 * k..]);
    4 * (k + steps.len())
}

/// The certificate of what a sheet's bytes came to.
#[tactic(auto, unfolding(crate::specs::Certified::ending_certificate, littleendian::specs::Words::bytes_of))]
fn put_solved(bytes: &[u8], solved: Solved, steps: &[u32], out: &mut [u8]) -> usize
    requires certifiable { Certifiable bytes.now (solved_as solved) steps.now }
    requires steps_len_bound { (length steps.now ≤ most_derivation) × (4 * certificate_room ≤ length out.old) }
    ensures { (take result out.new ≡ bytes_of (solved_certificate (words_in bytes.now) (solved_as solved) steps.now)) × (result ≤ length out.new) }
{
    match solved.ending {
        Ending::Planned => {
            let n = variables_in(bytes);
            put_certificate(&solved.plan[..n], solved.bound, &steps[..solved.steps], out)
        }
        Ending::Refused(_) | Ending::Paused | Ending::Full => 0,
    }
}

/// Plans a sheet's bytes in buffers of its own; the certificate is put in front of the buffer lent.
pub fn certify(bytes: &[u8], out: &mut [u8]) -> Certified
    requires { 4 * certificate_room ≤ length out.old }
    ensures { (result.text.items ≡ certified_text bytes.now) × (take result.certificate out.new ≡ certificate_of bytes.now) × (result.certificate ≤ length out.new) }
{
    let mut instance = [0u32; BUFFER_WORDS];
    let mut table = [0u32; WORK_WORDS];
    let mut steps = [0u32; MOST_STEPS];
    let solved = planning::solve_bytes(bytes, MOST_STEPS, &mut instance, &mut table, &mut steps);
    let certificate = put_solved(bytes, solved, &steps, out);
    let mut text = [0u8; 1024];
    let length = printing::put_solved(bytes, solved, &mut text);
    Certified {
        text: Text::front(text, length),
        certificate,
    }
}
