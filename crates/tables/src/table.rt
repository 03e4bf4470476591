ghost use Rattle.std.specs.Prelude.{◌≡◌, ◌≤◌, true, length};
ghost use Rattle.refusals.specs.Judged.{judged, left};
ghost use Rattle.tables.specs.Rows.{no_rows, row_at, with_row, rows_fit, row_refusal};

use crate::dated::DatedTable;
use crate::row::Row;
use crate::years::Years;
use refusals::Refusal;

// How many ages there are: 0 to 120.
pub const AGES: usize = 121;

// A mortality table without a date: a row, or none, for each of the ages 0 to 120, in fixed memory. Its odds
// hold in a year that nobody has said yet, so that no odds at valuation can be asked of it.
#[derive(Drop)]
pub struct Table {
    rows: [Option<Row>; AGES],
    ghost size: { length rows ≡ 121 },
    ghost fit: { rows_fit rows ≡ true },
}

impl Table {
    // A table without rows.
    pub fn new() -> Table
        ensures { result.rows ≡ no_rows }
    {
        Table { rows: [None; AGES] }
    }

    // Puts the row of an age, in the place of an earlier one; refused where a number is out of range.
    pub fn set_row(&mut self, age: usize, row: Row) -> Result<(), Refusal>
        ensures answer { result ≡ judged (row_refusal age row) tt }
        ensures after { self.new.rows ≡ left (row_refusal age row) self.old.rows (with_row self.old.rows age row) }
    {
        if age >= AGES || !row.is_in_range() {
            return Err(Refusal::RowNumber);
        }
        self.rows[age] = Some(row);
        Ok(())
    }

    // The row of an age, or nothing.
    pub fn row(&self, age: usize) -> Option<Row>
        ensures { result ≡ row_at self.now.rows age }
    {
        self.rows.get(age).copied().flatten()
    }

    // The table dated by years that were tried.
    pub fn date(self, years: Years) -> DatedTable
        ensures { (result.table ≡ self) × (result.years ≡ years) }
    {
        DatedTable { table: self, years }
    }
}
