//! What the report of a run costs a datagram.
mod hosts;

use hosts::hosts;
use rds_report::report_parts;
use rds_text::HostEnd;
use rds_wire::Memory;
use std::alloc::AllocError;
use std::io::Print;
use std::thread::Threads;
use std::time::{Clock, Instant};

/// How many datagrams there are where no word says it.
const FEW: u32 = 400;

/// How often the report is made.
const TIMES: u32 = 5;

/// Writes how long the report of a short exchange is.
pub fn show(rt: &(impl Print + Threads + Sync + AllocGlobal)) -> anyhow::Result<()> {
    let ends = hosts(rt.alloc(), FEW).map_err(no_memory)?;
    let bytes = reported(rt, &ends).map_err(no_memory)?;
    rt.println(format_args!("report: that on {FEW} datagrams has {bytes} bytes"))?;
    Ok(())
}

/// Measures what each datagram of a long exchange costs.
pub fn measure(
    rt: &(impl Clock + Print + Threads + Sync + AllocGlobal),
    count: u32,
) -> anyhow::Result<()> {
    for _ in 0..TIMES {
        let ends = hosts(rt.alloc(), count).map_err(no_memory)?;
        let start = Instant::now(rt)?;
        let bytes = reported(rt, &ends).map_err(no_memory)?;
        let each = start.elapsed(rt)?.as_nanos() / u128::from(count.max(1));
        rt.println(format_args!("{count} datagrams, {bytes} bytes: {each} ns of wall time each"))?;
    }
    Ok(())
}

fn no_memory(_error: Memory) -> AllocError {
    AllocError
}

// How many bytes the report has.
fn reported(rt: &(impl Threads + Sync + AllocGlobal), ends: &[HostEnd]) -> Result<u64, Memory> {
    let mut bytes = 0u64;
    for part in report_parts(rt, rt.alloc(), ends)? {
        bytes = bytes.saturating_add(part.len() as u64);
    }
    Ok(bytes)
}
