//! Measures hosts: the calls of a socket, datagrams through two lines, and eight hosts that have nothing to do. With no word the
//! program makes a few rounds of each benchmark, measures nothing and writes one line for each. The words `socket ROUNDS [KIND]`,
//! `line COUNT` and `idle SECONDS` measure one of them.
#![tactic(auto)]

mod idle;
mod line;
mod socket;

use anyhow::{Context, bail};
use std::env;

fn main(rt: HostRuntime) -> anyhow::Result<()> {
    let mut words = env::args(&rt)?.skip(1);
    let Some(benchmark) = words.next() else {
        socket::show(&rt)?;
        line::show(&rt, rt.alloc())?;
        return idle::show(&rt);
    };
    let count = words.next().context("a number is missing")?;
    match benchmark.as_str() {
        "socket" => match words.next() {
            None => socket::measure(&rt, count.parse()?),
            Some(kind) => socket::repeat(&rt, kind.as_str(), count.parse()?),
        },
        "line" => line::measure(&rt, rt.alloc(), count.parse()?),
        "idle" => idle::measure(&rt, count.parse()?),
        _ => bail!("no benchmark has this name"),
    }
}
