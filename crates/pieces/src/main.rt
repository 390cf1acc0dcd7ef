// A program for the tests: its input is a plain word, the length of pieces, and a season, which it feeds in pieces of that length. It prints the line
// of the season's figures.
#![tactic(auto)]

ghost use Rattle.std.specs.Prelude.{◌*◌, ◌≤◌, ◌≡◌, length};
ghost use Rattle.cutting.specs.Cutting.{longest_sheet};
ghost use Rattle.batch.specs.Season.{season_line};
ghost use Rattle.batch.specs.Feeding.{finished_line};

use batch::Season;
use std::io::Print;

/// The most bytes that are read: the word and a season of 131,072.
const LONGEST: usize = 131076;

/// The season that bytes lead to, in pieces of a length.
fn fed_in_pieces(bytes: &[u8], long: usize, body: &mut [u8]) -> Season
    requires { (1 ≤ long) × (4 * longest_sheet ≤ length body.old) }
    ensures { finished_line result ≡ season_line bytes.now }
{
    let mut season = Season::start();
    let mut at = 0;
    // No `for`: the last piece may be shorter.
    while at < bytes.len() {
        let end = at + long.min(bytes.len() - at);
        season = season.feed(body, &bytes[at..end]);
        at = end;
    }
    season
}

fn main(rt: HostRuntime) {
    let mut bytes = [0u8; LONGEST];
    let mut body = [0u8; cutting::SHEET_BYTES];
    let got = reading::read_all(&mut rt.stdin(), &mut bytes).unwrap_or(0);
    if got < 4 {
        let _ = rt
            .stderr()
            .write_all(b"pieces: the length of pieces cannot be read\n");
        return;
    }
    let long = littleendian::word_at(&bytes, 0) as usize;
    if long == 0 {
        let _ = rt
            .stderr()
            .write_all(b"pieces: a piece has at least one byte\n");
        return;
    }
    let season = fed_in_pieces(&bytes[4..got], long, &mut body);
    let line = season.finish();
    let _ = rt.write_all(&line);
}
