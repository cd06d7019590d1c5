//! How many streams are prepared for a run.
ghost use Rattle.std.specs.Prelude.{◌≡◌, ◌≤◌, ℕ, IfOk, filter, filter_map, length};
ghost use Rattle.rds_script.specs.declared.script.TheConstants.{MAX_CUTS};
ghost use Rattle.rds_script.specs.Grammar.{meaning};
ghost use Rattle.rds_script.specs.Script.{IsScript};
ghost use Rattle.rds_run_hosts.specs.Cuts.{AreFewCuts, cut_of as cut_alone, is_cut as is_any_cut};
ghost use Rattle.rds_run_hosts.specs.Streams.{cuts_between as cuts_of, is_cut_between as is_cut_of, prepared_streams as streams_of};

use rds_script::{Command, Placed, Script};
use rds_wire::Memory;
use std::alloc::{AllocError, Global};

/// How many streams more are prepared between two hosts than the script has cuts between them.
pub(crate) const MORE_STREAMS: u32 = 3;

/// How many streams are prepared for a run of the script, between all its hosts together.
pub fn prepared_streams(script: &Script) -> u64
    requires { IsScript script.now }
    ensures { result ≡ streams_of (meaning script.now) }
{
    let mut streams = count_cuts(script.commands.as_slice()) as u64;
    for host in 0..script.hosts {
        streams += u64::from(u32::from(host) * MORE_STREAMS);
    }
    streams
}

// How many of the commands are cuts.
fn count_cuts(commands: &[Placed]) -> usize
    ensures { result ≡ length (filter (λ placed. is_any_cut placed.command) commands.now) }
{
    commands
        .iter()
        .filter(|placed| is_cut(&placed.command))
        .count()
}

// Whether the command is a cut.
fn is_cut(command: &Command) -> bool
    ensures { result ≡ is_any_cut command.now }
{
    matches!(command, Command::Cut { .. })
}

/// The cuts among the commands of a script, so that no other command is looked at again for each two hosts.
pub(crate) fn cuts_of(alloc: Global, script: &Script) -> Result<Vec<Placed>, Memory>
    requires { IsScript script.now }
    ensures few { IfOk result (λ cuts. AreFewCuts cuts.items) }
    ensures all { IfOk result (λ cuts. (low high : ℕ) → cuts_of low high cuts.items ≡ cuts_of low high script.now.commands.items) }
{
    Ok(only_cuts(alloc, script.commands.as_slice())?)
}

// The cuts among commands.
fn only_cuts(alloc: Global, commands: &[Placed]) -> Result<Vec<Placed>, AllocError>
    ensures { IfOk result (λ cuts. cuts.items ≡ filter_map cut_alone commands.now) }
{
    commands
        .iter()
        .filter_map(|placed| cut_of(placed))
        .collect(alloc)
}

// The command, if it is a cut.
fn cut_of(placed: &Placed) -> Option<Placed>
    ensures { result ≡ cut_alone placed.now }
{
    match placed.command {
        Command::Cut { host, to } => Some(Placed {
            line: placed.line,
            command: Command::Cut { host, to },
        }),
        _ => None,
    }
}

/// How many cuts there are between two hosts, whichever of them cuts.
pub(crate) fn cuts_between(commands: &[Placed], low: u8, high: u8) -> u32
    requires { AreFewCuts commands.now }
    ensures count { result ≡ cuts_of low high commands.now }
    ensures most { result ≤ MAX_CUTS }
{
    cuts_among(commands, low, high) as u32
}

// How many of the commands are cuts between two hosts.
fn cuts_among(commands: &[Placed], low: u8, high: u8) -> usize
    ensures { result ≡ cuts_of low high commands.now }
{
    commands
        .iter()
        .filter(|placed| is_cut_between(&placed.command, low, high))
        .count()
}

// Whether the command is a cut between two hosts.
fn is_cut_between(command: &Command, low: u8, high: u8) -> bool
    ensures { result ≡ is_cut_of low high command.now }
{
    match command {
        Command::Cut { host, to } => {
            (*host == low && *to == high) || (*host == high && *to == low)
        }
        _ => false,
    }
}
