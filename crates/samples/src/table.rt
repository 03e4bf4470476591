ghost use Rattle.std.specs.Prelude.{◌≡◌};
ghost use Rattle.samples.specs.Rows.{sample_rows};

use tables::{Row, Table};

// Ages with the odds and the yearly fall of their rows.
const ROWS: [(usize, u32, u32); 12] = [
    (40, 1_200, 18_000),
    (45, 1_900, 18_000),
    (50, 3_100, 17_000),
    (55, 5_000, 16_000),
    (60, 8_000, 15_000),
    (65, 12_000, 14_000),
    (70, 19_500, 12_000),
    (75, 32_000, 10_000),
    (80, 54_000, 8_000),
    (85, 92_000, 5_000),
    (90, 152_000, 2_500),
    (95, 240_000, 1_000),
];

// A mortality table of a dozen ages, made up for the reports.
pub fn sample_table() -> Table
    ensures { result.rows ≡ sample_rows }
{
    let mut table = Table::new();
    for (age, odds, fall) in ROWS {
        table.set_row(age, Row { odds, fall }).unwrap();
    }
    table
}

#[cfg(test)]
mod tests {
    use super::sample_table;
    use tables::Row;

    #[test]
    fn rows_of_the_sample(rt: HostRuntime) {
        let table = sample_table();
        let row = Row {
            odds: 12_000,
            fall: 14_000,
        };
        assert_eq!(rt; table.row(65), Some(row));
        assert_eq!(rt; table.row(66), None);
    }
}
