ghost use Rattle.std.specs.Prelude.{◌≡◌};
ghost use Rattle.tables.specs.Worked.{worked_values, WorkedOut};

use crate::row::Row;

// A value worked out by hand: the odds of a row so many years after the base year.
#[derive(Clone, Copy)]
pub struct Worked {
    pub row: Row,
    pub years: u16,
    pub odds: u32,
}

fn by_hand(odds: u32, fall: u32, years: u16, valued: u32) -> Worked
    ensures { result ≡ record { row = record { odds = odds; fall = fall }; years = years; odds = valued } }
{
    let row = Row { odds, fall };
    Worked {
        row,
        years,
        odds: valued,
    }
}

// Values worked out by hand, each of which the definition of odds at valuation gives.
pub fn worked_values() -> [Worked; 5]
    ensures value { result ≡ worked_values }
    ensures worked_out { WorkedOut }
{
    [
        by_hand(12_000, 10_000, 2, 11_761),
        by_hand(5, 100_000, 1, 4),
        by_hand(15, 100_000, 2, 12),
        by_hand(999_999, 100_000, 1, 899_999),
        by_hand(100, 10_000, 100, 49),
    ]
}
