//! Hostile use of what a run is made of. The first word says of what: `growths [CALL]` of calls that may find no memory, `exchange` of
//! two lines that may find none, `frames SEED COUNT` of frames, lawful and damaged ones, `again` of many runs in one process. Without a
//! word it does a little of each.
#![tactic(auto)]

mod again;
mod exchange;
mod frames;
mod growths;

use anyhow::{Context, bail};
use rds_link::StdSource;
use std::env;
use std::process::ExitCode;

/// The status where there is no memory to begin with.
const MEMORY: u8 = 6;

/// The seed and the number of frames without words.
const SEED: u64 = 1;

const FRAMES: u64 = 400;

fn main(rt: HostRuntime) -> anyhow::Result<ExitCode> {
    let Ok(words) = env::args(&rt) else {
        return Ok(ExitCode::from(MEMORY));
    };
    let mut words = words.skip(1);
    let Some(what) = words.next() else {
        growths::show_all(&rt, rt.alloc());
        exchange::show(&rt, rt.alloc())?;
        again::tell(&rt, rt.alloc(), SEED)?;
        return frames::show(&rt, rt.alloc(), SEED, FRAMES);
    };
    match what.as_str() {
        "growths" => match words.next() {
            Some(call) => Ok(growths::show(&rt, rt.alloc(), call.as_str())),
            None => Ok(growths::show_all(&rt, rt.alloc())),
        },
        "exchange" => exchange::show(&rt, rt.alloc()),
        "frames" => {
            let seed = words.next().context("the seed is missing")?.parse()?;
            let count = words
                .next()
                .context("the number of frames is missing")?
                .parse()?;
            frames::show(&rt, rt.alloc(), seed, count)
        }
        "again" => {
            again::show(&rt, rt.alloc(), &mut StdSource::new(rt.reader()))?;
            Ok(ExitCode::SUCCESS)
        }
        _ => bail!("nothing has this name"),
    }
}
