ghost use Rattle.std.specs.Prelude.{◌≡◌, true};
ghost use Rattle.tables.specs.Ranges.{odds_fit, fall_fits};
ghost use Rattle.tables.specs.Rows.{row_fits};
ghost use Rattle.tables.specs.Falls.{fall_of, odds_left, odds_after};
ghost use Rattle.tables.specs.Valuation.{rates_after, Valued};

use crate::row::{Rates, Row};

const MILLION: u64 = 1_000_000;

// Odds in range, with the millionths of them by which they fall in a year.
#[derive(Clone, Copy)]
struct Falling {
    odds: u32,
    fall: u32,
    ghost odds_in_range: { odds_fit odds ≡ true },
    ghost fall_in_range: { fall_fits fall ≡ true },
}

impl Falling {
    // The fall of one year.
    fn yearly(self) -> u32
        ensures { result ≡ fall_of self.fall self.odds }
    {
        let product = u64::from(self.odds) * u64::from(self.fall);
        // `as` loses no bit, which is proved; `try_from` would be no plainer, since it answers a `Result` to take apart.
        ((product + MILLION / 2) / MILLION) as u32
    }

    // The odds left after one year more.
    #[tactic(auto, using(crate::proofs::Falling::fall_within, crate::proofs::Falling::left_fits))]
    fn next(self) -> Falling
        ensures odds { result.odds ≡ odds_left self.fall self.odds }
        ensures fall { result.fall ≡ self.fall }
    {
        Falling {
            odds: self.odds - self.yearly(),
            fall: self.fall,
        }
    }

    // The odds left after so many years.
    fn after(self, years: u16) -> Falling
        ensures odds { result.odds ≡ odds_after self.fall years self.odds }
        ensures fall { result.fall ≡ self.fall }
    {
        // Nothing is counted or gathered: the same step is taken again, and a fold is no plainer.
        let mut falling = self;
        for _year in 0..years {
            falling = falling.next();
        }
        falling
    }

    // The odds after so many years, and as their change the fall of the year that comes.
    #[tactic(auto, using(crate::proofs::Falling::fall_within, crate::proofs::Falling::odds_high))]
    fn rates(self, years: u16) -> Rates
        ensures { result ≡ rates_after years (record { odds = self.odds; fall = self.fall }) }
    {
        let left = self.after(years);
        Rates {
            odds: left.odds,
            change: -left.yearly().cast_signed(),
        }
    }
}

impl Row {
    // The rates of a row in range after so many years.
    pub(crate) fn rates_after(self, years: u16) -> Rates
        requires { row_fits self ≡ true }
        ensures value { result ≡ rates_after years self }
        ensures meaning { Valued self years result }
    {
        let Row { odds, fall } = self;
        Falling { odds, fall }.rates(years)
    }
}
