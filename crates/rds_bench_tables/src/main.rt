//! Measures the tables and queues that threads share: the port table and the meter, mailboxes, and the maps of peers. With no word
//! the program makes a few rounds of each benchmark, measures nothing and writes one line for each. The words `tables ROUNDS`,
//! `mail COUNT` and `map LOOKS` measure one of them.
#![tactic(auto)]

mod mail;
mod map;
mod tables;

use anyhow::{Context, bail};
use std::env;

fn main(rt: HostRuntime) -> anyhow::Result<()> {
    let mut words = env::args(&rt)?.skip(1);
    let Some(benchmark) = words.next() else {
        tables::show(&rt, rt.alloc())?;
        mail::show(&rt, rt.alloc())?;
        return map::show(&rt, rt.alloc());
    };
    let count = words.next().context("a number is missing")?.parse()?;
    match benchmark.as_str() {
        "tables" => tables::measure(&rt, rt.alloc(), count),
        "mail" => mail::measure(&rt, rt.alloc(), count),
        "map" => map::measure(&rt, rt.alloc(), count),
        _ => bail!("no benchmark has this name"),
    }
}
