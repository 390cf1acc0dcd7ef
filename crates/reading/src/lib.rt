// Reads for the programs: one read a call and never ahead of what is asked, so that the place in a file shows what was read; and what the programs do that read, work and write.
#![tactic(auto)]

ghost use Rattle.std.specs.Prelude.{◌≤◌, IfOk, IfErr, length};
ghost use Rattle.std.specs.Io.{ReadsAtMost};
ghost use Rattle.std.specs.Io.KnownBytes.{ReadConsumes};

use std::io;
use std::io::{Print, Read};
use text::Text;

/// Makes one read into the front of the bytes; how many came, 0 where the input has ended.
///
/// # Errors
///
/// Where the read fails: nothing was read then.
pub fn read_some<R: Read>(input: &mut R, bytes: &mut [u8]) -> io::Result<usize>
    ensures bound { ReadsAtMost result bytes.new }
    ensures bytes { ReadConsumes (R.remaining input.old) (R.remaining input.new) result bytes.new }
{
    input.read(bytes)
}

/// A reading that failed before its end.
#[derive(Clone, Copy)]
pub struct Failed {
    /// How many bytes had come.
    pub length: usize,
    /// Why no more came.
    pub error: io::Error,
}

/// Reads until the bytes are full or the input has ended; how many came.
///
/// # Errors
///
/// Where a read fails, with how many bytes had come, so that no cut input passes for a whole one.
pub fn read_all<R: Read>(input: &mut R, bytes: &mut [u8]) -> Result<usize, Failed>
    ensures whole { IfOk result (λ n. n ≤ length bytes.new) }
    ensures cut { IfErr result (λ f. f.length ≤ length bytes.new) }
{
    let mut done = 0;
    // No `for`: a read brings as many bytes as it likes.
    while done < bytes.len() {
        match read_some(input, &mut bytes[done..]) {
            Ok(more) => {
                if more == 0 {
                    break;
                }
                done += more;
            }
            Err(error) => {
                return Err(Failed {
                    length: done,
                    error,
                });
            }
        }
    }
    Ok(done)
}

/// Reads the standard input into the bytes, until they are full or it has ended, and writes what the work makes of it to the standard output. Where
/// the input cannot be read, or the answer not written, the one or the other complaint goes to the standard error.
pub fn answer<F: FnOnce(&[u8]) -> Text>(
    rt: HostRuntime,
    bytes: &mut [u8],
    unread: &[u8],
    unwritten: &[u8],
    work: F,
)
    requires { F.IsAlwaysCallable work }
{
    let Ok(got) = read_all(&mut rt.stdin(), bytes) else {
        let _ = rt.stderr().write_all(unread);
        return;
    };
    let text = work(&bytes[..got]);
    if rt.write_all(&text).is_err() {
        let _ = rt.stderr().write_all(unwritten);
    }
}
