// Plays the same steps on a set of bit rows and on a pair list, and shows that the two agree.

#![tactic(auto)]

mod comparison;
mod example;
mod report;
mod step;

use anyhow::Context;
use example::Example;
use pair_list::{PLACES, PairList};
use std::alloc::Global;
use stores::{BitRows, Pair};

fn compare_makes(
    rt: &impl Print,
    heap: Global,
    memory: &mut [Pair],
    example: &Example,
) -> anyhow::Result<()> {
    let list = PairList::over(memory).context("memory for the pair list")?;
    report::show(rt, heap, BitRows::new(), list, example)
}

fn main(rt: HostRuntime) -> anyhow::Result<()> {
    let mut memory = [Pair { left: 0, right: 0 }; PLACES];
    compare_makes(&rt, rt.alloc(), &mut memory, &example::ROLE_PAIRS)?;
    println!(rt; "")?;
    compare_makes(&rt, rt.alloc(), &mut memory, &example::PERMISSIONS)
}
