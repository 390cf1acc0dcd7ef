// Reads a word that says what is wanted and the words of a table from standard input, and writes the table in the form wanted to standard output, or the line of a refusal. A byte more than the longest input is read, so that a longer one shows.
#![tactic(auto)]

ghost use Rattle.std.specs.Prelude.{◌≡◌, ◌*◌, ◌≤◌, IfOk, length, take};
ghost use Rattle.fields.specs.Numbers.{refusal_in};
ghost use Rattle.fields.specs.Answers.{answer_of};
ghost use Rattle.littleendian.specs.Words.{words_in};
ghost use Rattle.text.specs.Text.{refused_line};
ghost use Rattle.converter.specs.Converted.{most_words, form_number, wanted_form, wanted_words, request_fault, converted_in, answer_bytes, table_bytes, converted_bytes};

use fields::refusals::Refusal;
use std::io::Print;

/// The words of the longest table: 4,096 rows of six words over twelve stations.
const MOST_WORDS: usize = 24590;

/// The form that a request asks for, by the words to a row.
#[derive(Clone, Copy, Debug, PartialEq, Eq)]
enum Form {
    Five,
    Six,
}

/// What a request asks for: a form, and the words of the target.
#[derive(Clone, Copy, Debug, PartialEq, Eq)]
struct Request {
    form: Form,
    words: usize,
}

/// What the bytes ask for, before the table behind it is looked at.
fn read_request(bytes: &[u8]) -> Result<Request, Refusal>
    ensures refused { refusal_in result ≡ request_fault bytes.now }
    ensures asked { IfOk result (λ r. (form_number r.form ≡ wanted_form bytes.now) × (r.words ≡ wanted_words bytes.now)) }
{
    if 4 + 4 * MOST_WORDS < bytes.len() {
        return Err(Refusal::TargetTooShort);
    }
    if bytes.len() % 4 != 0 {
        return Err(Refusal::BadTable);
    }
    if bytes.len() == 0 {
        return Err(Refusal::BadTable);
    }
    let asked = littleendian::word_at(bytes, 0);
    let form = words::kind(asked);
    if form < 5 {
        return Err(Refusal::BadTable);
    }
    if 6 < form {
        return Err(Refusal::BadTable);
    }
    let words = words::payload(asked) as usize;
    if MOST_WORDS < words {
        return Err(Refusal::TargetTooShort);
    }
    if form == 5 {
        return Ok(Request {
            form: Form::Five,
            words,
        });
    }
    Ok(Request {
        form: Form::Six,
        words,
    })
}

/// The call that makes the form: six-word rows from five, or five from six.
#[tactic(auto, using(crate::proofs::Answering::makes_six_lem, crate::proofs::Answering::makes_five_lem))]
fn convert(form: Form, source: &[u32], target: &mut [u32]) -> Result<usize, Refusal>
    ensures { record { answer = answer_of result; target = target.new } ≡ converted_in (form_number form) source.now target.old }
{
    match form {
        Form::Six => conversion::to_six(source, target),
        Form::Five => conversion::to_five(source, target),
    }
}

/// The line of a refusal, put in front of a buffer.
fn put_refusal(number: u32, out: &mut [u8]) -> usize
    requires { 64 ≤ length out.old }
    ensures { (take result out.new ≡ refused_line number) × (result ≤ 64) × (length out.new ≡ length out.old) }
{
    text::put_refused(out, 0, number)
}

/// What is printed of a call's answer: the bytes of the target, or the line of a refusal.
#[tactic(auto, using(crate::proofs::Answering::refusal_put, crate::proofs::Answering::target_put))]
fn put_answer(answer: Result<usize, Refusal>, target: &[u32], out: &mut [u8]) -> usize
    requires { (64 ≤ length out.old) × (4 * length target.now ≤ length out.old) }
    ensures { (take result out.new ≡ answer_bytes (record { answer = answer_of answer; target = target.now })) × (result ≤ length out.new) }
{
    if let Err(refusal) = answer {
        return put_refusal(refusal.number(), out);
    }
    littleendian::write_words(target, out);
    4 * target.len()
}

/// A table converted into a target, and what is printed of that.
fn put_converted(form: Form, source: &[u32], target: &mut [u32], out: &mut [u8]) -> usize
    requires { (64 ≤ length out.old) × (4 * length target.old ≤ length out.old) }
    ensures { (take result out.new ≡ answer_bytes (converted_in (form_number form) source.now target.old)) × (result ≤ length out.new) }
{
    let answer = convert(form, source, target);
    put_answer(answer, target, out)
}

/// A table's bytes converted as a request asks: the words are read into the front of one buffer, and the target is the front of another.
fn convert_table(request: Request, bytes: &[u8], out: &mut [u8]) -> usize
    requires { (length bytes.now ≤ 4 * most_words) × (request.words ≤ most_words) × (4 * most_words ≤ length out.old) }
    ensures { (take result out.new ≡ table_bytes (form_number request.form) request.words (words_in bytes.now)) × (result ≤ length out.new) }
{
    let mut source = [0u32; MOST_WORDS];
    let mut target = [0u32; MOST_WORDS];
    let n = littleendian::read_words(bytes, &mut source);
    let m = request.words;
    put_converted(request.form, &source[..n], &mut target[..m], out)
}

/// The answer to a request's bytes.
fn convert_bytes(bytes: &[u8], out: &mut [u8]) -> usize
    requires { 4 * most_words ≤ length out.old }
    ensures { (take result out.new ≡ converted_bytes bytes.now) × (result ≤ length out.new) }
{
    match read_request(bytes) {
        Ok(request) => convert_table(request, &bytes[4..], out),
        Err(refusal) => put_refusal(refusal.number(), out),
    }
}

fn main(rt: HostRuntime) {
    let mut bytes = [0u8; 98365];
    let Ok(got) = reading::read_all(&mut rt.stdin(), &mut bytes) else {
        let _ = rt
            .stderr()
            .write_all(b"converter: the table cannot be read\n");
        return;
    };
    let mut out = [0u8; 98360];
    let length = convert_bytes(&bytes[..got], &mut out);
    if rt.write_all(&out[..length]).is_err() {
        let _ = rt
            .stderr()
            .write_all(b"converter: the table cannot be written\n");
    }
}
