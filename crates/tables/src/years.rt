ghost use Rattle.std.specs.Prelude.{◌≡◌, ◌-◌, ◌≤◌, true, false, MatchResult};
ghost use Rattle.refusals.specs.declared.Refusal.TheVariants.{Year};
ghost use Rattle.tables.specs.Ranges.{years_fit};

use refusals::Refusal;

const FIRST_BASE: u16 = 1900;

const LAST_BASE: u16 = 2200;

const LONGEST: u16 = 100;

// A base year and a valuation year that were tried: whoever holds one can date a table by it.
// There is no other way to make one, and no default.
#[derive(Clone, Copy, PartialEq, Eq, Debug)]
pub struct Years {
    base: u16,
    valuation: u16,
    ghost tried: { years_fit base valuation ≡ true },
}

impl Years {
    // Tries a base year (1900 to 2200) and a valuation year (from the base to 100 years later).
    pub fn new(base: u16, valuation: u16) -> Result<Years, Refusal>
        ensures { MatchResult result (λ y. (years_fit base valuation ≡ true) × (y.base ≡ base) × (y.valuation ≡ valuation)) (λ e. (years_fit base valuation ≡ false) × (e ≡ Year)) }
    {
        if !(FIRST_BASE..=LAST_BASE).contains(&base)
            || !(base..=base + LONGEST).contains(&valuation)
        {
            return Err(Refusal::Year);
        }
        Ok(Years { base, valuation })
    }

    // The year in which the table's odds hold as they stand in its rows.
    pub fn base(&self) -> u16
        ensures { result ≡ self.now.base }
    {
        self.base
    }

    // The year for which the odds are asked.
    pub fn valuation(&self) -> u16
        ensures { result ≡ self.now.valuation }
    {
        self.valuation
    }

    // The years between the two.
    pub(crate) fn distance(&self) -> u16
        ensures { result ≡ self.now.valuation - self.now.base }
    {
        // read first, so that both are known to be in the range of their type
        let (base, valuation) = (self.base, self.valuation);
        valuation - base
    }
}
