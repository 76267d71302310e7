// Builds the example house, and shows when its draft may open and which environment roles are active.

#![tactic(auto)]

use anyhow::Context;

mod house;
mod report;

fn main(rt: HostRuntime) -> anyhow::Result<()> {
    println!(rt; "Rowan House")?;
    let draft = house::draft().context("building the draft of the example house")?;
    report::openings(&rt, &draft)?;
    report::activity(&rt, &draft)
}
