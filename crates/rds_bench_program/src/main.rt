//! Measures what the parts of a script's run cost on one thread: datagrams through two connections, the playing of long scripts, and
//! the report. With no word the program makes a few rounds of each benchmark, measures nothing and writes one line for each. The words
//! `conn COUNT [BATCH] [BYTES]`, `play LINES KIND` and `report COUNT` measure one of them.
#![tactic(auto)]

mod conn;
mod memory;
mod play;
mod report;

use anyhow::{Context, bail};
use conn::{BATCH, LENGTH};
use play::ScriptKind;
use std::env;

fn main(rt: HostRuntime) -> anyhow::Result<()> {
    let mut words = env::args(&rt)?.skip(1);
    let Some(benchmark) = words.next() else {
        conn::show(&rt)?;
        play::show(&rt)?;
        return report::show(&rt);
    };
    let count = words.next().context("a number is missing")?;
    match benchmark.as_str() {
        "conn" => {
            let batch = match words.next() {
                Some(batch) => batch.parse()?,
                None => BATCH,
            };
            let length = match words.next() {
                Some(length) => length.parse()?,
                None => LENGTH,
            };
            conn::measure(&rt, count.parse()?, batch, length)
        }
        "play" => {
            let kind = words.next().context("a kind of scripts is missing")?;
            let kind = ScriptKind::named(kind.as_str()).context("no scripts are of this kind")?;
            play::measure(&rt, kind, count.parse()?)
        }
        "report" => report::measure(&rt, count.parse()?),
        _ => bail!("no benchmark has this name"),
    }
}
