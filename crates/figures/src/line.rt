// The line of the figures, put in front of a buffer.
ghost use Rattle.std.specs.Prelude.{◌+◌, ◌≤◌, length};
ghost use Rattle.text.specs.Putting.{Put};
ghost use Rattle.figures.specs.Line.{figures_line, spaced};

use crate::{COLUMNS, Figures};

/// The counts, a space behind each. Each takes 20 digits at most, so eleven take 231 bytes.
fn put_counts(out: &mut [u8], at: usize, counts: &[u32; COLUMNS]) -> usize
    requires { at + 231 ≤ length out.old }
    ensures { Put out.old at (spaced counts.now) out.new result × (result ≤ at + 231) }
{
    let mut end = at;
    for &count in counts {
        let digits = text::put_number(out, end, u64::from(count));
        end = text::put(out, digits, b" ");
    }
    end
}

/// Puts the line of a season's figures: the eleven counts, the sum of the least costs, the largest and the sheet that has it. The
/// counts take 231 bytes at most, the other three numbers 64.
pub fn put_figures(figures: Figures, out: &mut [u8]) -> usize
    requires { 295 ≤ length out.old }
    ensures { Put out.old 0 (figures_line figures) out.new result × (result ≤ 295) }
{
    let head = put_counts(out, 0, &figures.counts);
    text::put_three(
        out,
        head,
        figures.sum,
        figures.largest,
        u64::from(figures.first),
    )
}
