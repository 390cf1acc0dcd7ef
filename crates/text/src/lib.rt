// The printed text: numbers and lines put into a buffer behind the bytes that it holds.
#![tactic(auto)]

ghost use Rattle.std.specs.Prelude.{◌+◌, ◌≤◌, length};
ghost use Rattle.text.specs.Text.{decimal, refused_line, stopped_line, head_lines, three_line, variable_line};
ghost use Rattle.text.specs.Putting.{Put};

use bytelist::ByteList;

/// The text that a program prints. A head and the lines of twelve variables take 832 bytes at most.
pub type Text = ByteList<1024>;

/// How a run ended without a plan, as the first word of its line says.
#[derive(Clone, Copy, Debug, PartialEq, Eq)]
pub enum Stop {
    /// The steps that were asked for are made: PAUSED.
    Paused,
    /// The table has no room for another row: FULL.
    Full,
}

/// What a text of an assignment begins with.
#[derive(Clone, Copy, Debug, PartialEq, Eq)]
pub enum Head {
    /// A plan: PLAN.
    Plan,
    /// A verified certificate: ACCEPTED.
    Accepted,
}

/// Puts bytes as they are.
pub fn put(out: &mut [u8], at: usize, bytes: &[u8]) -> usize
    requires { at + length bytes.now ≤ length out.old }
    ensures { Put out.old at bytes.now out.new result }
{
    let end = at + bytes.len();
    out[at..end].copy_from_slice(bytes);
    end
}

/// Puts a number's decimal digits, 20 at most: those of its tenth, then its last.
pub fn put_number(out: &mut [u8], at: usize, n: u64) -> usize
    requires { at + 20 ≤ length out.old }
    ensures { Put out.old at (decimal n) out.new result × (result ≤ at + 20) }
{
    if n < 10 {
        out[at] = (48 + n) as u8;
        at + 1
    } else {
        let last = put_number(out, at, n / 10);
        out[last] = (48 + n % 10) as u8;
        last + 1
    }
}

/// Puts the line of a refusal: REFUSED and its number.
pub fn put_refused(out: &mut [u8], at: usize, number: u32) -> usize
    requires { at + 64 ≤ length out.old }
    ensures { Put out.old at (refused_line number) out.new result × (result ≤ at + 64) }
{
    let head = put(out, at, b"REFUSED ");
    let end = put_number(out, head, u64::from(number));
    put(out, end, b"\n")
}

/// Puts the line of a run that stopped: PAUSED or FULL, the steps, BOUND and the bound.
pub fn put_stopped(out: &mut [u8], at: usize, stop: Stop, steps: usize, bound: u64) -> usize
    requires { at + 64 ≤ length out.old }
    ensures { Put out.old at (stopped_line stop steps bound) out.new result × (result ≤ at + 64) }
{
    let head = match stop {
        Stop::Paused => put(out, at, b"PAUSED "),
        Stop::Full => put(out, at, b"FULL "),
    };
    let counted = put_number(out, head, steps as u64);
    let word = put(out, counted, b" BOUND ");
    let end = put_number(out, word, bound);
    put(out, end, b"\n")
}

/// Puts the head of an assignment: PLAN or ACCEPTED, then COST and STEPS, each on a line of its own.
pub fn put_head(out: &mut [u8], at: usize, head: Head, cost: u64, steps: usize) -> usize
    requires { at + 64 ≤ length out.old }
    ensures { Put out.old at (head_lines head cost steps) out.new result × (result ≤ at + 64) }
{
    let first = match head {
        Head::Plan => put(out, at, b"PLAN\n"),
        Head::Accepted => put(out, at, b"ACCEPTED\n"),
    };
    let word = put(out, first, b"COST ");
    let costed = put_number(out, word, cost);
    let next = put(out, costed, b"\nSTEPS ");
    let end = put_number(out, next, steps as u64);
    put(out, end, b"\n")
}

/// Puts a line of three numbers.
pub fn put_three(out: &mut [u8], at: usize, a: u64, b: u64, c: u64) -> usize
    requires { at + 64 ≤ length out.old }
    ensures { Put out.old at (three_line a b c) out.new result × (result ≤ at + 64) }
{
    let one = put_number(out, at, a);
    let first = put(out, one, b" ");
    let two = put_number(out, first, b);
    let second = put(out, two, b" ");
    let three = put_number(out, second, c);
    put(out, three, b"\n")
}

/// Puts the line of a variable: its number, its value, and the metres to it.
pub fn put_variable(out: &mut [u8], at: usize, variable: u32, value: u8, metres: u32) -> usize
    requires { at + 64 ≤ length out.old }
    ensures { Put out.old at (variable_line variable value metres) out.new result × (result ≤ at + 64) }
{
    put_three(
        out,
        at,
        u64::from(variable),
        u64::from(value),
        u64::from(metres),
    )
}
