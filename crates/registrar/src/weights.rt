// Two members are weighed: what each expects to forfeit in a year, and how that changes.
use amounts::{Amount, Drift, lesser};
use anyhow::Context;
use samples::weight_of;
use tables::{DatedTable, Rates};

// A member of the report.
#[derive(Clone, Copy)]
struct Member {
    number: u8,
    age: usize,
    stake: u64,
}

const FIRST: Member = Member {
    number: 1,
    age: 65,
    stake: 1_000_000,
};

const SECOND: Member = Member {
    number: 2,
    age: 70,
    stake: 2_500_000,
};

// Prints an amount's letter and text.
fn print_amount<K: Amount>(rt: &impl Print, label: &str, amount: K) -> anyhow::Result<()> {
    // an amount writes its text into its caller's buffer
    let mut buffer = [0u8; 40];
    let size = amount.text(&mut buffer)?;
    let text = std::str::from_utf8(buffer.get(..size).context("a text that is too long")?)?;
    println!(rt; "  {label:<10} {} {text}", char::from(K::LETTER))?;
    Ok(())
}

impl Member {
    // The weight with its yearly change. The crate circles has its own for stakes within bounds, where no product is cut off.
    fn drift(&self, rates: Rates) -> Drift {
        let cents = i64::try_from(self.stake).unwrap_or(i64::MAX);
        Drift {
            weight: weight_of(self.stake, rates).0,
            change: cents.saturating_mul(i64::from(rates.change)),
        }
    }

    fn print(&self, rt: &impl Print, rates: Rates) -> anyhow::Result<()> {
        println!(rt;
            "  member {}, age {}, stake {}",
            self.number, self.age, self.stake
        )?;
        print_amount(rt, "    weight", weight_of(self.stake, rates))?;
        print_amount(rt, "    drift", self.drift(rates))
    }
}

// The part of the report on amounts.
pub(crate) fn report(rt: &impl Print, table: &DatedTable) -> anyhow::Result<()> {
    let first = table.rates(FIRST.age)?;
    let second = table.rates(SECOND.age)?;
    println!(rt; "Weights of two members: stake times odds, and with the yearly change")?;
    FIRST.print(rt, first)?;
    SECOND.print(rt, second)?;
    let a = weight_of(FIRST.stake, first);
    let b = weight_of(SECOND.stake, second);
    print_amount(rt, "lesser", lesser(a, b))?;
    let together = a.sum(b).context("weights that are too large together")?;
    print_amount(rt, "together", together)
}
