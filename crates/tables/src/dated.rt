ghost use Rattle.std.specs.Prelude.{◌≡◌};
ghost use Rattle.refusals.specs.Judged.{judged, left};
ghost use Rattle.tables.specs.Rows.{row_at, with_row, row_refusal};
ghost use Rattle.tables.specs.Valuation.{distance, rates_at, ValuedAt};

use crate::row::{Rates, Row};
use crate::table::Table;
use crate::years::Years;
use refusals::Refusal;

// A table with the year in which its odds hold and the year for which they are asked.
#[derive(Drop)]
pub struct DatedTable {
    pub(crate) table: Table,
    pub(crate) years: Years,
}

// `row` and `set_row` pass on to the table by hand: a `Deref` is no plainer, since it would lend all calls of an undated table.
impl DatedTable {
    // The years by which the table is dated.
    pub fn years(&self) -> Years
        ensures { result ≡ self.now.years }
    {
        self.years
    }

    // The row of an age, or nothing.
    pub fn row(&self, age: usize) -> Option<Row>
        ensures { result ≡ row_at self.now.table.rows age }
    {
        self.table.row(age)
    }

    // Puts the row of an age, in the place of an earlier one; refused where a number is out of range.
    pub fn set_row(&mut self, age: usize, row: Row) -> Result<(), Refusal>
        ensures answer { result ≡ judged (row_refusal age row) tt }
        ensures after { self.new.table.rows ≡ left (row_refusal age row) self.old.table.rows (with_row self.old.table.rows age row) }
        ensures years { self.new.years ≡ self.old.years }
    {
        self.table.set_row(age, row)
    }

    // The table dated by other years, in the place of the earlier ones.
    pub fn date(self, years: Years) -> DatedTable
        ensures { (result.table ≡ self.table) × (result.years ≡ years) }
    {
        self.undate().date(years)
    }

    // The table without its years.
    pub fn undate(self) -> Table
        ensures { result ≡ self.table }
    {
        let DatedTable { table, years: _ } = self;
        table
    }

    // The odds of an age at valuation and their yearly change; refused for an age without a row.
    #[tactic(auto, using(crate::proofs::Entries::fit_row))]
    pub fn rates(&self, age: usize) -> Result<Rates, Refusal>
        ensures value { result ≡ rates_at self.now.table.rows (distance self.now.years) age }
        ensures meaning { ValuedAt self.now.table.rows (distance self.now.years) age result }
        ensures only_distance_counts { (other : DatedTable) → other.table.rows ≡ self.now.table.rows → distance other.years ≡ distance self.now.years → rates_at other.table.rows (distance other.years) age ≡ result }
    {
        let row = self.row(age).ok_or(Refusal::AgeWithoutRow)?;
        Ok(row.rates_after(self.years.distance()))
    }
}
