// A mortality table is built, dated and valued, age by age.
use refusals::Refusal;
use samples::sample_table;
use std::io;
use tables::{AGES, DatedTable, Years};

// Tries a pair of years and says how that went.
fn try_years(rt: &impl Print, base: u16, valuation: u16) -> io::Result<Result<Years, Refusal>> {
    let years = Years::new(base, valuation);
    match years {
        Ok(_) => println!(rt; "  base {base}, valuation {valuation}: accepted")?,
        // printed and not passed on: the report tells refusals by their numbers
        Err(refusal) => println!(rt;
            "  base {base}, valuation {valuation}: refused ({})",
            refusal.number()
        )?,
    }
    Ok(years)
}

fn print_heading(rt: &impl Print, years: Years) -> io::Result<()> {
    let base = years.base();
    let valuation = years.valuation();
    println!(rt;
        "Mortality table, base year {base}, valuation year {valuation} (odds and falls in millionths)"
    )?;
    println!(rt;
        "  {:>3}  {:>12}  {:>11}  {:>17}  {:>13}",
        "age", "odds at base", "yearly fall", "odds at valuation", "yearly change"
    )
}

// Prints a line for each age that has a row, and tells how many there are.
fn print_rates(rt: &impl Print, table: &DatedTable) -> io::Result<u32> {
    let mut valued: u32 = 0;
    // the table is asked by ages; nothing is indexed
    for age in 0..AGES {
        if let (Some(row), Ok(rates)) = (table.row(age), table.rates(age)) {
            println!(rt;
                "  {age:>3}  {:>12}  {:>11}  {:>17}  {:>13}",
                row.odds, row.fall, rates.odds, rates.change
            )?;
            valued = valued.saturating_add(1);
        }
    }
    Ok(valued)
}

// The part of the report on a table's valuation. It hands the table on, dated.
pub(crate) fn report(rt: &impl Print) -> anyhow::Result<DatedTable> {
    println!(rt; "Years tried for the table")?;
    let _ = try_years(rt, 2020, 2019)?;
    let years = try_years(rt, 2020, 2026)??;
    let table = sample_table();
    let table = table.date(years);
    println!(rt; "")?;
    print_heading(rt, table.years())?;
    let valued = print_rates(rt, &table)?;
    println!(rt; "{valued} ages valued")?;
    Ok(table)
}
