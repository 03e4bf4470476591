ghost use Rattle.std.specs.Prelude.{◌≡◌};
ghost use Rattle.tables.specs.Rows.{row_fits};

// The greatest odds of dying within a year, in millionths.
pub const MOST_ODDS: u32 = 999_999;

const MOST_FALL: u32 = 100_000;

// What a table says of one age: the odds of dying within a year, in millionths, in the table's base
// year, and the fall of these odds from year to year, in millionths of them.
// These are plain numbers; a table refuses those that are out of range.
#[derive(Clone, Copy, PartialEq, Eq, Debug)]
pub struct Row {
    pub odds: u32,
    pub fall: u32,
}

impl Row {
    // Whether the numbers are in range.
    pub(crate) fn is_in_range(self) -> bool
        ensures { result ≡ row_fits self }
    {
        (1..=MOST_ODDS).contains(&self.odds) && self.fall <= MOST_FALL
    }
}

// What a dated table says of one age: the odds at valuation, in millionths, and what they change by
// in the year after.
#[derive(Clone, Copy, PartialEq, Eq, Debug)]
pub struct Rates {
    pub odds: u32,
    pub change: i32,
}
