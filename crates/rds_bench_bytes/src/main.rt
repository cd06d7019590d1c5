//! Measures what bytes cost on their way: frames that are written, checked and split, and streams in memory. With no word the
//! program makes a few rounds of each benchmark, measures nothing and writes one line for each. The words `frame ROUNDS` and
//! `link BYTES` measure one of them.
#![tactic(auto)]

mod frame;
mod link;

use anyhow::{Context, bail};
use std::env;

fn main(rt: HostRuntime) -> anyhow::Result<()> {
    let mut words = env::args(&rt)?.skip(1);
    let Some(benchmark) = words.next() else {
        frame::show(&rt)?;
        return link::show(&rt, rt.alloc());
    };
    let count = words.next().context("a number is missing")?;
    match benchmark.as_str() {
        "frame" => frame::measure(&rt, count.parse()?),
        "link" => link::measure(&rt, rt.alloc(), count.parse()?),
        _ => bail!("no benchmark has this name"),
    }
}
