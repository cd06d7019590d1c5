//! Frames by a seed, lawful and damaged ones, through a splitter and a connection, each answer compared with that of a plain reader of
//! the format.
mod chance;
mod connecting;
mod making;
mod plain;
mod splitting;
mod steps;
mod tally;

use anyhow::anyhow;
use chance::Chance;
use connecting::is_taken;
use making::{SENT, Stream};
use plain::Sight;
use splitting::is_split;
use std::alloc::Global;
use std::io::Print;
use std::process::ExitCode;
use tally::Tally;

/// Compares so many frames of a seed, and writes what came.
pub fn show(rt: &impl Print, alloc: Global, seed: u64, frames: u64) -> anyhow::Result<ExitCode> {
    let mut chance = Chance::new(seed);
    let mut tally = Tally::default();
    for _ in 0..frames {
        let left = frames.saturating_sub(tally.made());
        if left == 0 {
            break;
        }
        compare(alloc, left, &mut chance, &mut tally)?;
    }
    println!(rt; "seed {seed}: {tally}")?;
    Ok(tally.status())
}

// Compares one stream of at most so many frames.
fn compare(alloc: Global, most: u64, chance: &mut Chance, tally: &mut Tally) -> anyhow::Result<()> {
    let stream = Stream::new(alloc, chance, most)?;
    let sight = Sight {
        highest: SENT,
        known: u32::from(chance.byte() % 3),
    };
    let bytes = stream.bytes.as_slice();
    let split = is_split(alloc, bytes, sight, chance, tally).map_err(|_| anyhow!("out of memory"))?;
    let taken = is_taken(alloc, bytes, chance, tally).map_err(|error| anyhow!(
        "a connection: {error:?}"
    ))?;
    tally.count_stream(stream.frames, split && taken);
    Ok(())
}
