// A season's sheets planned one after the other as their bytes come, in whatever pieces: every decision that the program makes on them.
#![tactic(auto)]

ghost use Rattle.std.specs.Prelude.{◌≡◌, true, ◌≤◌, ◌<◌, min, length};
ghost use Rattle.fields.specs.Numbers.{number_of};
ghost use Rattle.fields.specs.Limits.{greatest_allowed};
ghost use Rattle.cutting.specs.Cutting.{wanted_in};
ghost use Rattle.figures.specs.Counting.{column_count, planned_column, counted, takes_sheet};
ghost use Rattle.batch.specs.Season.{refusal_column, column_of};
ghost use Rattle.planning.specs.Values.{ending_as};
ghost use Rattle.planning.specs.Solving.{solved_of};
ghost use Rattle.cutting.specs.Pieces.{end_of};
ghost use Rattle.batch.specs.Feeding.{started_season, counted_sheet, behind_sheet, after_found, season_takes, fed, is_cut, finished_figures, finished_line};

use bytelist::ByteList;
use cutting::{Found, Phase};
use fields::refusals::Refusal;
use figures::Figures;
use planning::Ending;

/// How far a season has come.
#[derive(Clone, Copy, Debug, PartialEq, Eq)]
pub struct Season {
    /// The phase of its reading.
    pub phase: Phase,
    /// The figures of its sheets so far.
    pub figures: Figures,
}

/// The line of a season's figures, 295 bytes at most.
pub type Line = ByteList<512>;

/// The columns of what is refused under 1, 10, 12 and 15, of what is paused and of what is full.
const CUT_OFF: usize = 1;

const TOO_LONG: usize = 6;

const TOO_MANY: usize = 7;

const FORBIDDEN: usize = 8;

const PAUSED: usize = 9;

const FULL: usize = 10;

/// The column of a refusal. No sheet is refused otherwise than by its faults, a length, its rows or what it forbids.
#[tactic(auto, unfolding(crate::specs::Season::refusal_column))]
fn refusal_column(refusal: Refusal) -> usize
    ensures { result ≡ refusal_column (number_of refusal) }
{
    match refusal {
        Refusal::Input(fault) => fault.number() as usize,
        Refusal::TargetTooShort => TOO_LONG,
        Refusal::TableFull => TOO_MANY,
        Refusal::Forbidden => FORBIDDEN,
        Refusal::BadStep
        | Refusal::BadClaim
        | Refusal::BadReadout
        | Refusal::BadTable
        | Refusal::WeightTooHigh
        | Refusal::PairLeft
        | Refusal::BadFixed
        | Refusal::WeightTooWide => figures::COLUMNS,
    }
}

/// The column of an ending.
#[tactic(auto, unfolding(crate::specs::Season::column_of))]
fn column(ending: Ending) -> usize
    ensures { result ≡ column_of (ending_as ending) }
{
    match ending {
        Ending::Planned => figures::PLANNED,
        Ending::Refused(refusal) => refusal_column(refusal),
        Ending::Paused => PAUSED,
        Ending::Full => FULL,
    }
}

/// Whether a length or a sheet has begun and not come to its end.
#[tactic(auto, unfolding(crate::specs::Feeding::is_cut))]
fn is_cut(phase: Phase) -> bool
    ensures { result ≡ is_cut phase }
{
    !matches!(phase, Phase::Length(0) | Phase::Over)
}

impl Season {
    /// A season of which nothing is read.
    pub fn start() -> Self
        ensures returned { result ≡ started_season }
    {
        Season {
            phase: Phase::Length(0),
            figures: Figures::new(),
        }
    }

    /// Behind one sheet more: the next length follows, or nothing after the last.
    fn behind(figures: Figures, column: usize, cost: u64) -> Self
        requires figures_value { (takes_sheet figures ≡ true) × (column < column_count) }
        requires cost_le_greatest_allowed { column ≡ planned_column → cost ≤ greatest_allowed }
        ensures { result ≡ behind_sheet (counted figures column cost) }
    {
        let figures = figures.counted(column, cost);
        let phase = if figures.sheets() < figures::MOST_SHEETS {
            Phase::Length(0)
        } else {
            Phase::Over
        };
        Season { phase, figures }
    }

    /// Behind a sheet's bytes, which are planned.
    fn behind_sheet(figures: Figures, bytes: &[u8]) -> Self
        requires { takes_sheet figures ≡ true }
        ensures { result ≡ behind_sheet (counted_sheet figures (solved_of bytes.now)) }
    {
        let solved = planning::solve(bytes);
        Season::behind(figures, column(solved.ending), solved.bound)
    }

    /// Behind what came to its end.
    #[tactic(auto, unfolding(crate::specs::Feeding::after_found, crate::specs::Season::column_of, crate::specs::Season::refusal_column))]
    fn after(figures: Figures, phase: Phase, found: Found, body: &[u8]) -> Self
        requires figures_value { takes_sheet figures ≡ true }
        requires found_in_bounds { end_of found ≤ length body.now }
        ensures { result ≡ after_found figures phase body.now found }
    {
        match found {
            Found::Nothing | Found::Length => Season { phase, figures },
            Found::Sheet(end) => Season::behind_sheet(figures, &body[..end]),
            Found::PassedOver => Season::behind(figures, TOO_LONG, 0),
        }
    }

    /// Whether the season takes a byte, with a buffer of such a length.
    fn takes(self, room: usize) -> bool
        ensures { result ≡ season_takes self room }
    {
        cutting::takes(self.phase, room) && self.figures.takes()
    }

    /// Bytes taken as they come: they lead where the same bytes in other pieces do. A season that is over stays as it is, and so does one
    /// whose phase or figures are out of range, or whose buffer is too short.
    pub fn feed(self, body: &mut [u8], bytes: &[u8]) -> Self
        ensures returned { record { season = result; body = body.new } ≡ fed (record { season = self; body = body.old }) bytes.now }
    {
        let mut season = self;
        let mut at = 0;
        // A turn goes on by as many bytes as its cut took, so this is no loop over the bytes.
        while at < bytes.len() {
            if !season.takes(body.len()) {
                return season;
            }
            let taken = cutting::cut(season.phase, body, &bytes[at..]);
            season = Season::after(season.figures, taken.phase, taken.found, body);
            at += taken.count;
        }
        season
    }

    /// How many bytes to read next, at most so many: none behind the length or the sheet that the season is in, and none where it is over.
    pub fn wanted(self, most: usize) -> usize
        ensures returned { result ≡ min (wanted_in self.phase) most }
    {
        cutting::wanted(self.phase, most)
    }

    /// The figures at the end of the file.
    #[tactic(auto, unfolding(crate::specs::Feeding::finished_figures, crate::specs::Season::column_of, crate::specs::Season::refusal_column))]
    fn finished(self) -> Figures
        ensures { result ≡ finished_figures self }
    {
        if is_cut(self.phase) && self.figures.takes() {
            return self.figures.counted(CUT_OFF, 0);
        }
        self.figures
    }

    /// The line of the figures at the end of the file.
    pub fn finish(self) -> Line
        ensures returned { result.items ≡ finished_line self }
    {
        let mut bytes = [0u8; 512];
        let length = figures::line::put_figures(self.finished(), &mut bytes);
        Line::front(bytes, length)
    }
}
