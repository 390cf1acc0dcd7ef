// A certificate verified: from a sheet's bytes and the certificate's to the text that is printed. Nothing here plans.
#![tactic(auto)]

ghost use Rattle.std.specs.Prelude.{◌≡◌, ◌*◌, ◌≤◌, length};
ghost use Rattle.fields.specs.Numbers.{number_of, refusal_in};
ghost use Rattle.littleendian.specs.Words.{words_in};
ghost use Rattle.sheet.specs.Sheet.{sheet_fault};
ghost use Rattle.making.specs.Made.{made_words};
ghost use Rattle.listing.specs.Plans.{HoldsPlan};
ghost use Rattle.checker.specs.Answer.{checked_as};
ghost use Rattle.text.specs.Text.{refused_line};
ghost use Rattle.verifying.specs.Verified.{certificate_room, length_fault, checked_words, sheet_verdict, accepted_text, outcome_text, answer_text, verified_text, verified};

use certificate::Claim;
use checker::Stopped;
use fields::refusals::{Fault, Refusal};
use text::{Head, Text};

/// The most words of a sheet and of its instance.
pub const SHEET_WORDS: usize = 16000;

/// The most words of a certificate: with twelve variables and 200,000 words of derivation.
pub const CERTIFICATE_ROOM: usize = 200015;

/// The words of the work table: 4,096 rows over twelve variables.
pub const WORK_WORDS: usize = 24590;

/// Bytes that are to be at most so many words, and whole ones: refused as too long if they are more, else as given if they are odd.
fn check_length(bytes: &[u8], most: usize, odd: Refusal) -> Result<(), Refusal>
    requires { most ≤ certificate_room }
    ensures { refusal_in result ≡ length_fault most (number_of odd) bytes.now }
{
    if 4 * most < bytes.len() {
        return Err(Refusal::TargetTooShort);
    }
    if bytes.len() % 4 != 0 {
        return Err(odd);
    }
    Ok(())
}

/// The line of a refusal.
fn refused_text(number: u32) -> Text
    ensures { result.items ≡ refused_line number }
{
    let mut out = [0u8; 1024];
    let length = text::put_refused(&mut out, 0, number);
    Text::front(out, length)
}

/// The text of an accepted claim.
fn accepted_text(sheet: &[u32], plan: &[u8], steps: usize, cost: u64) -> Text
    requires { HoldsPlan sheet.now plan.now }
    ensures { result.items ≡ accepted_text sheet.now plan.now steps cost }
{
    let mut out = [0u8; 1024];
    let head = text::put_head(&mut out, 0, Head::Accepted, cost, steps);
    let length = listing::put_assignment(sheet, plan, &mut out, head);
    Text::front(out, length)
}

/// The text of a claim's check: the claim with its steps, or the line of the refusal.
#[tactic(auto, using(crate::proofs::Verdicts::passed_text, crate::proofs::Verdicts::failed_text, crate::proofs::Verdicts::refused_more, crate::proofs::Verdicts::whole_plan))]
fn outcome_text(sheet: &[u32], plan: &[u8], checked: Result<usize, Stopped>, cost: u64) -> Text
    requires { ((checked_as checked).number ≡ 0) → HoldsPlan sheet.now plan.now }
    ensures { result.items ≡ outcome_text sheet.now plan.now cost (checked_as checked) }
{
    match checked {
        Ok(steps) => accepted_text(sheet, plan, steps, cost),
        Err(stopped) => refused_text(stopped.refusal.number()),
    }
}

/// The text of a certificate's words, checked against the instance made from the sheet.
fn checked_text(sheet: &[u32], instance: &[u32], certificate: &[u32]) -> Text
    requires { (sheet_fault sheet.now ≡ 0) × (instance.now ≡ made_words sheet.now) }
    ensures { result.items ≡ answer_text sheet.now certificate.now (checked_words instance.now certificate.now) }
{
    let Claim::Stated(n, cost) = certificate::read_claim(certificate) else {
        return refused_text(Refusal::BadClaim.number());
    };
    let mut plan = [0u8; fields::MAX_VARIABLES];
    certificate::read_plan(certificate, &mut plan);
    let mut table = [0u32; WORK_WORDS];
    let checked = checker::check(
        instance,
        &certificate[n + 3..],
        &plan[..n],
        cost,
        &mut table,
    );
    outcome_text(sheet, &plan[..n], checked, cost)
}

/// The text of a certificate's bytes, whose words are read into a local buffer.
fn certificate_text(sheet: &[u32], instance: &[u32], certificate: &[u8]) -> Text
    requires { (sheet_fault sheet.now ≡ 0) × (instance.now ≡ made_words sheet.now) × (length certificate.now ≤ 4 * certificate_room) }
    ensures { result.items ≡ answer_text sheet.now (words_in certificate.now) (checked_words instance.now (words_in certificate.now)) }
{
    let mut words = [0u32; CERTIFICATE_ROOM];
    let k = littleendian::read_words(certificate, &mut words);
    checked_text(sheet, instance, &words[..k])
}

/// The text of a certificate for a sheet's words, from which the instance is made in a local buffer.
fn verdict_text(sheet: &[u32], certificate: &[u8]) -> Text
    ensures { result.items ≡ answer_text sheet.now (words_in certificate.now) (sheet_verdict sheet.now certificate.now) }
{
    let mut instance = [0u32; SHEET_WORDS];
    let long = match making::make(sheet, &mut instance) {
        Ok(long) => long,
        Err(refusal) => return refused_text(refusal.number()),
    };
    if let Err(refusal) = check_length(certificate, CERTIFICATE_ROOM, Refusal::BadClaim) {
        return refused_text(refusal.number());
    }
    certificate_text(sheet, &instance[..long], certificate)
}

/// The text for a sheet's and a certificate's bytes: ACCEPTED with the plan, or the line of a refusal.
pub fn verify_text(sheet: &[u8], certificate: &[u8]) -> Text
    ensures returned { result.items ≡ verified_text sheet.now certificate.now }
{
    if let Err(refusal) = check_length(sheet, SHEET_WORDS, Refusal::Input(Fault::BadHead)) {
        return refused_text(refusal.number());
    }
    let mut words = [0u32; SHEET_WORDS];
    let n = littleendian::read_words(sheet, &mut words);
    verdict_text(&words[..n], certificate)
}

/// The text for the program's input: the sheet's length in bytes, the sheet, and the certificate.
pub fn verify_input(bytes: &[u8]) -> Text
    ensures returned { result.items ≡ verified bytes.now }
{
    if bytes.len() < 4 {
        return verify_text(&[], &[]);
    }
    let said = littleendian::word_at(bytes, 0) as usize;
    let rest = &bytes[4..];
    if rest.len() < said {
        return verify_text(rest, &[]);
    }
    verify_text(&rest[..said], &rest[said..])
}
