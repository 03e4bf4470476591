// A circle lives: members are admitted by a valued table, a bar is put, the circle is planned, a second bar blocks it, and is
// lifted again; then the outlook.
use amounts::{Amount, Drift};
use anyhow::{Context, bail};
use circles::Circle;
use planner::{Answer, PAIRS};
use samples::{MemberSet, weight_of};
use tables::DatedTable;

// The members by age and stake.
const MEMBERS: [(usize, u64); 4] = [
    (65, 1_000_000),
    (70, 600_000),
    (75, 300_000),
    (60, 1_500_000),
];

fn admit_all(rt: &impl Print, table: &DatedTable, circle: &mut Circle) -> anyhow::Result<()> {
    println!(rt;
        "Circle {} of four, by a table of base year 2020, valued in 2026",
        circle.number()
    )?;
    for (age, stake) in MEMBERS {
        let rates = table.rates(age)?;
        let member = circle
            .admit(stake, rates)
            .context(format_args!("at age {age}"))?;
        println!(rt;
            "  member {member}: age {age}, stake {stake}, odds {}, weight {}",
            rates.odds,
            weight_of(stake, rates).0
        )?;
    }
    Ok(())
}

// Prints whom a giver's death would benefit, with what it expects to forfeit.
fn print_giver(rt: &impl Print, circle: &Circle, giver: usize) -> anyhow::Result<()> {
    print!(rt; "    {giver} forfeits")?;
    let mut sum: u64 = 0;
    // members are asked by their numbers, which are those of this range
    for receiver in 1..=MEMBERS.len() {
        let amount = circle.transfer(giver, receiver)?.0;
        if amount > 0 {
            print!(rt; " {amount} to {receiver},")?;
            sum = sum.saturating_add(amount);
        }
    }
    println!(rt; " together {sum}")?;
    Ok(())
}

// Plans the circle and prints the plan, or who blocks one.
fn print_plan(rt: &impl Print, circle: &mut Circle) -> anyhow::Result<()> {
    match circle.plan()? {
        Answer::Plan { steps } => {
            println!(rt; "  a fair plan stands, found in {steps} steps")?;
            // by their numbers again
            for giver in 1..=MEMBERS.len() {
                print_giver(rt, circle, giver)?;
            }
        }
        Answer::Blocked { steps, members } => println!(rt;
            "  blocked after {steps} steps by members{}",
            MemberSet(members)
        )?,
        Answer::Outgrown { .. } => bail!("a plan in money is never outgrown"),
    }
    Ok(())
}

// Bars a receiver from gaining by a giver's death, and plans again.
fn bar(rt: &impl Print, circle: &mut Circle, giver: usize, receiver: usize) -> anyhow::Result<()> {
    println!(rt; "  member {receiver} may not gain by the death of {giver}")?;
    circle.bar(giver, receiver)?;
    print_plan(rt, circle)
}

// Tells whether the circle stays plannable just after its date.
fn print_outlook(rt: &impl Print, circle: &Circle) -> anyhow::Result<()> {
    let zero = Drift::zero();
    let mut transfers = [zero; PAIRS];
    match circle.outlook(
        &mut transfers,
        &mut [zero; planner::MEMBERS],
        &mut [zero; planner::MEMBERS],
    )? {
        Answer::Plan { steps } => {
            println!(rt; "  just after its date it stays plannable, found in {steps} steps")?;
            let first = transfers[1];
            println!(rt;
                "    1 forfeits {} to 2, with a yearly change of {}",
                first.weight, first.change
            )?;
        }
        Answer::Blocked { steps, members } => println!(rt;
            "  just after its date it is blocked after {steps} steps by members{}",
            MemberSet(members)
        )?,
        Answer::Outgrown { steps } => println!(rt;
            "  the outlook is outgrown after {steps} steps"
        )?,
    }
    Ok(())
}

// The whole report.
pub(crate) fn report(rt: &impl Print, table: &DatedTable) -> anyhow::Result<()> {
    let mut circle = Circle::new(1);
    admit_all(rt, table, &mut circle)?;
    bar(rt, &mut circle, 1, 4)?;
    bar(rt, &mut circle, 4, 1)?;
    println!(rt; "  member 1 may gain by the death of 4 again")?;
    circle.lift(4, 1)?;
    print_plan(rt, &mut circle)?;
    print_outlook(rt, &circle)
}
