// A worked report on a circle, from its first admission to its outlook.
#![tactic(auto)]

mod circle;

use samples::sample_table;
use tables::Years;

fn run(rt: &impl Print) -> anyhow::Result<()> {
    let table = sample_table().date(Years::new(2020, 2026)?);
    circle::report(rt, &table)
}

fn main(rt: HostRuntime) -> anyhow::Result<()> {
    run(&rt)
}
