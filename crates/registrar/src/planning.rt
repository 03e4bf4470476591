// Two circles are planned by their weights: one that has a fair plan, and one that is blocked.
ghost use Rattle.std.specs.Iterator.{IsFinite};

use amounts::Money;
use anyhow::Context;
use planner::{Answer, MEMBERS, PAIRS, plan};
use refusals::Refusal;
use samples::MemberSet;
use std::fmt::Display;
use std::{array, io};
use words::Places;

// How many members each circle of the report has.
const COUNT: usize = 4;

// A circle of the report: what its members weigh, and their permission words, in two tables, as the plan call takes them.
#[derive(Clone, Copy)]
struct Circle {
    name: &'static str,
    weights: [u64; COUNT],
    words: [u64; COUNT],
}

const OPEN: Circle = Circle {
    name: "Circle of weights 40, 30, 20 and 10 without bars",
    weights: [40, 30, 20, 10],
    words: [0b1110, 0b1101, 0b1011, 0b0111],
};

const BARRED: Circle = Circle {
    name: "Circle of weights 50, 30, 20 and 15, two and two",
    weights: [50, 30, 20, 15],
    words: [0b1100, 0b1100, 0b0011, 0b0011],
};

// A table of as many numbers as the plan call takes, zero where nobody is.
fn table(numbers: [u64; COUNT]) -> [u64; MEMBERS] {
    array::from_fn(|place| numbers.get(place).copied().unwrap_or(0))
}

// The sum, or the most that a word holds: what the circles weigh has no bound here.
fn total<'a, I: Iterator<Item = &'a u64> + Drop>(amounts: I) -> u64
    requires can { I.can_next amounts }
    requires ends { IsFinite (I.remaining amounts) }
{
    amounts.fold(0, |sum: u64, amount| sum.saturating_add(*amount))
}

// Prints a cell for each member, and one more, in columns. A row is written at once.
fn print_row<T: Display + Drop>(
    rt: &impl Print,
    label: &str,
    [first, second, third, fourth]: &[T; COUNT],
    last: T,
) -> io::Result<()> {
    println!(rt; "  {label:>8}  {first:>5}  {second:>5}  {third:>5}  {fourth:>5}  {last:>6}")
}

// Prints who gives what to whom, with the sums of rows and columns.
fn print_table(rt: &impl Print, transfers: &[Money]) -> io::Result<()> {
    print_row(rt, "", &["to 1", "to 2", "to 3", "to 4"], "gives")?;
    let mut gets = [0u64; COUNT];
    let givers = ["from 1", "from 2", "from 3", "from 4"];
    for (giver, row) in givers.iter().zip(transfers.chunks(MEMBERS)) {
        let mut gives = [0u64; COUNT];
        for ((amount, give), get) in row.iter().zip(gives.iter_mut()).zip(gets.iter_mut()) {
            *give = amount.0;
            *get = get.saturating_add(amount.0);
        }
        print_row(rt, giver, &gives, total(gives.iter()))?;
    }
    print_row(rt, "gets", &gets, total(gets.iter()))
}

impl Circle {
    // Plans the circle into a table of transfers.
    fn plan(&self, transfers: &mut [Money]) -> Result<Answer, Refusal> {
        plan(
            COUNT,
            &table(self.weights).map(Money),
            &table(self.words),
            transfers,
            &mut [Money(0); MEMBERS],
            &mut [Money(0); MEMBERS],
        )
    }

    // What the members of a set weigh together.
    fn weight_of(&self, members: u64) -> u64 {
        total(Places(members).filter_map(|place| self.weights.get(place)))
    }

    // All who may receive from a member of a set.
    fn receivers_of(&self, members: u64) -> u64 {
        Places(members)
            .filter_map(|place| self.words.get(place))
            .fold(0, |all, word| all | *word)
    }

    fn print_blocked(&self, rt: &impl Print, members: u64) -> io::Result<()> {
        println!(rt;
            "  members{} weigh {} together",
            MemberSet(members),
            self.weight_of(members)
        )?;
        let receivers = self.receivers_of(members);
        println!(rt;
            "  all who may receive from them,{}, weigh {}",
            MemberSet(receivers),
            self.weight_of(receivers)
        )
    }

    fn print(&self, rt: &impl Print) -> anyhow::Result<()> {
        let name = self.name;
        let mut transfers = [Money(0); PAIRS];
        match self.plan(&mut transfers).context(name)? {
            Answer::Plan { steps } => {
                println!(rt; "{name}: a fair plan, found in {steps} steps")?;
                print_table(rt, &transfers)?;
            }
            Answer::Blocked { steps, members } => {
                println!(rt; "{name}: blocked after {steps} steps")?;
                self.print_blocked(rt, members)?;
            }
            Answer::Outgrown { steps } => println!(rt; "{name}: outgrown after {steps} steps")?,
        }
        Ok(())
    }
}

// The part of the report on plans.
pub(crate) fn report(rt: &impl Print) -> anyhow::Result<()> {
    OPEN.print(rt)?;
    println!(rt; "")?;
    BARRED.print(rt)
}
