ghost use Rattle.std.specs.Prelude.{IfOk, map, option_map, string_bytes};
ghost use Rattle.rds_run.specs.RunWords.{AreRun, IsWireFound, NamesWire, TakesRun};

use crate::wire::RunWire;
use clap::error::ErrorKind;
use clap::{Arg, ArgAction, Command};
use rds_wire::Memory;
use std::alloc::Global;

/// The wire that a run is to go over, if the words are those of `run`: its name, and after it nothing but the option `--wire` with
/// the value `memory` or `tcp`, or not even that, which means `memory`. A request for help is refused.
///
/// # Errors
///
/// Where there is no memory to read the words.
pub fn run_wire(alloc: Global, words: &[String]) -> Result<Option<RunWire>, Memory>
    ensures { IfOk result (IsWireFound (AreRun words.now)) }
{
    match words.first() {
        Some(name) if name.as_str() == "run" => wire_asked(alloc, words),
        Some(_) | None => Ok(None),
    }
}

// The wire that the words after the command's name ask for, if `clap` refuses none of them.
fn wire_asked(alloc: Global, words: &[String]) -> Result<Option<RunWire>, Memory>
    ensures { IfOk result (IsWireFound (TakesRun (map string_bytes words.now))) }
{
    let wire = Arg::new(alloc, "wire").long("wire").action(ArgAction::Set);
    let command = Command::new(alloc, "run").arg(wire)?;
    match command.try_get_matches_from(words) {
        Ok(matches) => Ok(wire_named(matches.get_str("wire"))),
        Err(error) => match error.kind() {
            ErrorKind::OutOfMemory => Err(Memory),
            _ => Ok(None),
        },
    }
}

// The wire of this name, if one has it. The one in memory goes without a name too.
fn wire_named(name: Option<&str>) -> Option<RunWire>
    ensures { IsWireFound (NamesWire (option_map (λ s. s.now) name.entry)) result }
{
    match name {
        None => Some(RunWire::Memory),
        Some(name) if name == "memory" => Some(RunWire::Memory),
        Some(name) if name == "tcp" => Some(RunWire::Tcp),
        Some(_) => None,
    }
}
