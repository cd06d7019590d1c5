//! What a line of a script costs: reading it, playing it, and the memory of that.
mod kind;
mod tally;

ghost use Rattle.std.specs.Prelude.{IfOk};
ghost use Rattle.rds_script.specs.Script.{IsScript};

use crate::memory;
use anyhow::bail;
pub use kind::ScriptKind;
use rds_model::MAX_ENTRIES;
use rds_play::{PlayEnd, play};
use rds_script::{Script, read};
use std::alloc::Global;
use std::io::Print;
use std::rt::Files;
use std::time::CpuClock;
use tally::Tally;

/// How many lines are played where no word says it.
const FEW: u32 = 400;

/// Writes what two short scripts print.
pub fn show(rt: &(impl Print + AllocGlobal)) -> anyhow::Result<()> {
    let mixed = printed(rt.alloc(), ScriptKind::Mixed)?;
    let cancelled = printed(rt.alloc(), ScriptKind::Cancelled)?;
    rt.println(format_args!(
        "play: {FEW} mixed lines print {mixed} bytes, {FEW} cancelled ones {cancelled}"
    ))?;
    Ok(())
}

// How many bytes a short script of that kind prints.
fn printed(alloc: Global, kind: ScriptKind) -> anyhow::Result<u64> {
    let text = kind.script(alloc, FEW)?;
    let script = read_script(alloc, text.as_str())?;
    played(alloc, &script)
}

/// Measures what each line of a long script costs.
pub fn measure(
    rt: &(impl CpuClock + Files + Print + AllocGlobal),
    kind: ScriptKind,
    lines: u32,
) -> anyhow::Result<()> {
    let text = kind.script(rt.alloc(), lines)?;
    let start = rt.thread_cpu_time()?;
    let script = read_script(rt.alloc(), text.as_str())?;
    let read = rt.thread_cpu_time()?.saturating_sub(start).as_nanos() / u128::from(lines.max(1));
    let before = memory::peak(rt)?;
    let start = rt.thread_cpu_time()?;
    let bytes = played(rt.alloc(), &script)?;
    let spent = rt.thread_cpu_time()?.saturating_sub(start).as_nanos() / u128::from(lines.max(1));
    let grown = memory::peak(rt)?.saturating_sub(before) / u64::from(lines.max(1));
    rt.println(format_args!(
        "{lines} lines, {bytes} bytes printed; a line: read in {read} ns, played in {spent} ns with {grown} bytes of memory"
    ))?;
    Ok(())
}

fn read_script(alloc: Global, text: &str) -> anyhow::Result<Script>
    ensures { IfOk result IsScript }
{
    match read(alloc, text.as_bytes()) {
        Ok(script) => Ok(script),
        Err(_) => bail!("the script can't be read"),
    }
}

// How many bytes the script prints.
fn played(alloc: Global, script: &Script) -> anyhow::Result<u64>
    requires { IsScript script.now }
{
    let mut tally = Tally::default();
    match play(alloc, script, MAX_ENTRIES, &mut tally) {
        PlayEnd::Ok => Ok(tally.bytes()),
        _ => bail!("the script isn't played to its end"),
    }
}
