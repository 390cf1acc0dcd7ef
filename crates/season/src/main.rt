// Reads a season from standard input and writes the line of its figures to standard output. Every decision on the bytes is made by `batch`.
#![tactic(auto)]

ghost use Rattle.std.specs.Prelude.{◌*◌, ◌≤◌, ◌≡◌, IfOk, IfErr, length};
ghost use Rattle.cutting.specs.Cutting.{longest_sheet, wanted_in};
ghost use Rattle.figures.specs.Counting.{most_sheets};
ghost use Rattle.batch.specs.Theorems.{ReadAs, most_sheet_bytes};

use batch::Season;
use std::io;
use std::io::{Print, Stdin};

/// A season whose reading failed.
#[derive(Clone, Copy)]
struct Cut {
    /// Where the bytes read led to.
    season: Season,
    /// Why no more came.
    error: io::Error,
}

/// The most bytes that a season has: it is over then, and the reading has an end.
fn most_bytes() -> u64
    ensures { result ≡ most_sheets * most_sheet_bytes }
{
    171798691840000
}

/// One read of the bytes that the season wants, and no more; how many came.
fn read_wanted(input: &mut Stdin, season: Season, piece: &mut [u8]) -> io::Result<usize>
    ensures { IfOk result (λ n. (n ≤ length piece.new) × (n ≤ wanted_in season.phase)) }
{
    let most = season.wanted(piece.len());
    if most == 0 {
        return Ok(0);
    }
    reading::read_some(input, &mut piece[..most])
}

/// Reads and feeds what is read until the season is over or the input has ended. A piece has room for a byte, and the buffer for the longest sheet.
fn read_season(mut input: Stdin, body: &mut [u8], piece: &mut [u8]) -> Result<Season, Cut>
    requires { (4 * longest_sheet ≤ length body.old) × (1 ≤ length piece.old) × (length piece.old ≤ 4 * longest_sheet) }
    ensures whole { IfOk result (ReadAs body.old) }
    ensures cut { IfErr result (λ c. ReadAs body.old c.season) }
{
    let most = most_bytes();
    let mut season = Season::start();
    let mut done: u64 = 0;
    // No `for`: a read brings as many bytes as it likes.
    while done < most {
        let length = match read_wanted(&mut input, season, piece) {
            Ok(length) => length,
            Err(error) => return Err(Cut { season, error }),
        };
        if length == 0 {
            break;
        }
        season = season.feed(body, &piece[..length]);
        done += length as u64;
    }
    Ok(season)
}

fn main(rt: HostRuntime) {
    let mut body = [0u8; cutting::SHEET_BYTES];
    let mut piece = [0u8; cutting::SHEET_BYTES];
    let Ok(season) = read_season(rt.stdin(), &mut body, &mut piece) else {
        let _ = rt
            .stderr()
            .write_all(b"season: the season cannot be read\n");
        return;
    };
    let line = season.finish();
    if rt.write_all(&line).is_err() {
        let _ = rt
            .stderr()
            .write_all(b"season: the figures cannot be written\n");
    }
}
