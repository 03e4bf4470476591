// Mortality tables: rows by age, dated by a base year and a valuation year, and the odds of an age
// at valuation with their yearly change.
#![tactic(auto)]

mod dated;
mod falls;
mod row;
mod table;
mod worked;
mod years;

pub use dated::DatedTable;
pub use row::{MOST_ODDS, Rates, Row};
pub use table::{AGES, Table};
pub use worked::{Worked, worked_values};
pub use years::Years;

#[cfg(test)]
mod tests {
    use super::*;
    use refusals::Refusal;
    use std::test::Fail;

    fn row(odds: u32, fall: u32) -> Row {
        Row { odds, fall }
    }

    #[test]
    fn years_at_the_edges(rt: HostRuntime) {
        assert!(rt; Years::new(1900, 1900).is_ok());
        assert!(rt; Years::new(2200, 2300).is_ok());
        assert!(rt; Years::new(1900, 2000).is_ok());
        assert!(rt; Years::new(1899, 1950).is_err());
        assert!(rt; Years::new(2201, 2201).is_err());
        assert!(rt; Years::new(2020, 2019).is_err());
        assert!(rt; Years::new(2020, 2121).is_err());
    }

    #[test]
    fn rows_at_the_edges(rt: HostRuntime) -> Result<(), Fail> {
        let mut table = Table::new();
        table.set_row(0, row(1, 0))?;
        table.set_row(120, row(999_999, 100_000))?;
        assert_eq!(rt; table.set_row(121, row(1, 0)), Err(Refusal::RowNumber));
        assert_eq!(rt; table.set_row(7, row(0, 0)), Err(Refusal::RowNumber));
        assert_eq!(rt;
            table.set_row(7, row(1_000_000, 0)),
            Err(Refusal::RowNumber)
        );
        assert_eq!(rt; table.set_row(7, row(1, 100_001)), Err(Refusal::RowNumber));
        assert_eq!(rt; table.row(0), Some(row(1, 0)));
        assert_eq!(rt; table.row(120), Some(row(999_999, 100_000)));
        assert_eq!(rt; table.row(7), None);
        assert_eq!(rt; table.row(121), None);
        Ok(())
    }

    #[test]
    fn later_row_replaces(rt: HostRuntime) -> Result<(), Fail> {
        let mut table = Table::new().date(Years::new(2020, 2021)?);
        table.set_row(65, row(12_000, 10_000))?;
        assert_eq!(rt;
            table.rates(65),
            Ok(Rates {
                odds: 11_880,
                change: -119,
            })
        );
        table.set_row(65, row(5, 100_000))?;
        assert_eq!(rt; table.rates(65), Ok(Rates { odds: 4, change: 0 }));
        assert_eq!(rt; table.set_row(65, row(0, 0)), Err(Refusal::RowNumber));
        assert_eq!(rt; table.rates(65), Ok(Rates { odds: 4, change: 0 }));
        assert_eq!(rt; table.rates(66), Err(Refusal::AgeWithoutRow));
        Ok(())
    }

    #[test]
    fn later_dating_replaces(rt: HostRuntime) -> Result<(), Fail> {
        let mut table = Table::new();
        table.set_row(65, row(12_000, 10_000))?;
        let dated = table.date(Years::new(2020, 2020)?);
        assert_eq!(rt;
            dated.rates(65),
            Ok(Rates {
                odds: 12_000,
                change: -120,
            })
        );
        let again = dated.date(Years::new(1950, 1952)?);
        assert_eq!(rt; again.years().base(), 1950);
        assert_eq!(rt;
            again.rates(65),
            Ok(Rates {
                odds: 11_761,
                change: -118,
            })
        );
        assert_eq!(rt; again.undate().row(65), Some(row(12_000, 10_000)));
        Ok(())
    }

    #[test]
    fn worked_values_through_a_table(rt: HostRuntime) -> Result<(), Fail> {
        for worked in worked_values() {
            let mut table = Table::new();
            table.set_row(65, worked.row)?;
            let valuation = 2000u16.checked_add(worked.years).ok_or("too many years")?;
            let dated = table.date(Years::new(2000, valuation)?);
            assert_eq!(rt; dated.rates(65)?.odds, worked.odds);
        }
        Ok(())
    }
}
