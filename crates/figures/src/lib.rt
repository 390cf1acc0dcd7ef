// A season's figures: how many sheets each outcome has, the sum of the least costs, and the largest with the first sheet that has it.
#![tactic(auto)]

pub mod line;

ghost use Rattle.std.specs.Prelude.{◌≡◌, true, ◌≤◌, ◌<◌, ◌^◌, length, sum};
ghost use Rattle.fields.specs.Limits.{greatest_allowed};
ghost use Rattle.figures.specs.Counting.{column_count, planned_column, no_figures, sheets_of, leads, counted, takes_sheet};

/// The columns that sheets are counted under, one for each outcome.
pub const COLUMNS: usize = 11;

/// The column of the sheets that are planned.
pub const PLANNED: usize = 0;

/// Reading ends after this sheet.
pub const MOST_SHEETS: u64 = 10000;

/// The greatest cost of a plan without a forbidden combination.
const GREATEST_ALLOWED: u64 = 268431360;

/// The figures of the sheets that were counted.
#[derive(Clone, Copy, Debug, PartialEq, Eq)]
pub struct Figures {
    /// How many sheets each column has.
    pub counts: [u32; COLUMNS],
    /// The sum of the least costs of the sheets that are planned.
    pub sum: u64,
    /// The largest of these costs, 0 if no sheet is planned.
    pub largest: u64,
    /// The first sheet that has it, counted from 1; 0 if no sheet is planned.
    pub first: u32,
}

/// The sum of a few counts.
fn total(counts: &[u32]) -> u64
    requires { length counts.now < 2 ^ 32 }
    ensures { result ≡ sum counts.now }
{
    counts.iter().map(|&count| u64::from(count)).sum()
}

impl Figures {
    /// The figures of no sheet.
    pub fn new() -> Figures
        ensures { result ≡ no_figures }
    {
        Figures {
            counts: [0; COLUMNS],
            sum: 0,
            largest: 0,
            first: 0,
        }
    }

    /// How many sheets are counted.
    pub fn sheets(&self) -> u64
        ensures { result ≡ sheets_of self.now }
    {
        total(&self.counts)
    }

    /// Whether one sheet more can be counted.
    #[tactic(auto, using(crate::proofs::Counting::takes_few, crate::proofs::Counting::takes_many))]
    pub fn takes(&self) -> bool
        ensures { result ≡ takes_sheet self.now }
    {
        let sheets = self.sheets();
        sheets < MOST_SHEETS && self.sum <= sheets * GREATEST_ALLOWED
    }

    /// Whether a sheet at this cost would be named with the largest.
    #[tactic(auto, using(crate::proofs::Counting::leads_first, crate::proofs::Counting::leads_above))]
    fn is_leading(&self, column: usize, cost: u64) -> bool
        ensures { result ≡ leads self.now column cost }
    {
        column == PLANNED && (self.first == 0 || self.largest < cost)
    }

    /// The figures with one sheet more, under a column; its cost counts if it is planned.
    #[tactic(auto, using(crate::proofs::Counting::sum_few))]
    pub fn counted(mut self, column: usize, cost: u64) -> Figures
        requires figures_value { (takes_sheet self ≡ true) × (column < column_count) }
        requires cost_le_greatest_allowed { column ≡ planned_column → cost ≤ greatest_allowed }
        ensures { result ≡ counted self column cost }
    {
        let number = self.sheets() + 1;
        let leading = self.is_leading(column, cost);
        self.counts[column] += 1;
        if column == PLANNED {
            self.sum += cost;
        }
        if leading {
            self.largest = cost;
            self.first = number as u32;
        }
        self
    }
}
