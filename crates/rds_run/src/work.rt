ghost use Rattle.std.specs.Prelude.{IfOk};
ghost use Rattle.rds_run.specs.Works.{IsWorkOf};

use crate::gen_words::gen_numbers;
use crate::play_words::is_play;
use crate::run_words::run_wire;
use crate::wire::RunWire;
use rds_wire::Memory;
use std::alloc::Global;

/// What the program is to do.
#[derive(Clone, Copy, Debug, PartialEq, Eq)]
pub enum Work {
    /// Play a script.
    Play,
    /// Run a script with threads, over streams of this wire.
    Run { wire: RunWire },
    /// Generate a script of so many sends from a seed, and run it over streams in memory.
    Gen { sends: u32, seed: u64 },
}

/// What the words after the program's name ask for, if they are those of a command.
///
/// # Errors
///
/// Where there is no memory to look at them.
pub fn work_of(alloc: Global, words: &[String]) -> Result<Option<Work>, Memory>
    ensures { IfOk result (IsWorkOf words.now) }
{
    if is_play(alloc, words)? {
        return Ok(Some(Work::Play));
    }
    if let Some(wire) = run_wire(alloc, words)? {
        return Ok(Some(Work::Run { wire }));
    }
    let numbers = gen_numbers(alloc, words)?;
    Ok(numbers.map(|(sends, seed)| Work::Gen { sends, seed }))
}
