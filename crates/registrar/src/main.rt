// The registrar's worked report: one task after another, from beginning to end.
#![tactic(auto)]

mod planning;
mod valuation;
mod weights;

fn run(rt: &impl Print) -> anyhow::Result<()> {
    let table = valuation::report(rt)?;
    println!(rt; "")?;
    weights::report(rt, &table)?;
    println!(rt; "")?;
    planning::report(rt)
}

fn main(rt: HostRuntime) -> anyhow::Result<()> {
    run(&rt)
}
