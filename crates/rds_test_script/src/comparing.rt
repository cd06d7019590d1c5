//! What a text answers, read by threads and by one.

use rds_script::*;
use rds_script_pieces::read_by_threads;
use std::alloc::{AllocError, Global};
use std::thread::Threads;

/// `LINE CAUSE` where the text is refused, `COMMANDS commands` where it is read; and `apart` where threads read something
/// other than one thread does.
pub fn answer<R: Threads + Sync>(rt: &R, alloc: Global, text: &[u8]) -> Result<String, AllocError> {
    let one = read(alloc, text);
    let other = read_by_threads(rt, alloc, text);
    if !is_same(&one, &other) {
        return String::from_str(alloc, "apart");
    }
    told(alloc, &other)
}

fn told(alloc: Global, answer: &Result<Script, ScriptError>) -> Result<String, AllocError> {
    match answer {
        Ok(script) => {
            let count = script.commands.len();
            format!(in alloc; "{count} commands")
        }
        Err(ScriptError::BadLine { line, cause }) => format!(in alloc; "{line} {cause}"),
        Err(ScriptError::Memory) => String::from_str(alloc, "memory"),
    }
}

fn is_same(one: &Result<Script, ScriptError>, other: &Result<Script, ScriptError>) -> bool {
    match one {
        Ok(script) => match other {
            Ok(second) => is_same_script(script, second),
            Err(_) => false,
        },
        Err(error) => match other {
            Ok(_) => false,
            Err(second) => *error == *second,
        },
    }
}

fn is_same_script(one: &Script, other: &Script) -> bool {
    if one.hosts != other.hosts
        || one.hosts_line != other.hosts_line
        || one.commands.len() != other.commands.len()
    {
        return false;
    }
    for (first, second) in one.commands.iter().zip(other.commands.iter()) {
        if !is_same_placed(first, second) {
            return false;
        }
    }
    true
}

fn is_same_placed(one: &Placed, other: &Placed) -> bool {
    one.line == other.line
        && words(&one.command) == words(&other.command)
        && payload(&one.command) == payload(&other.command)
}

/// What a command is called, and its numbers with 0 behind them.
pub fn words(command: &Command) -> (&'static str, [u32; 4]) {
    match command {
        Command::Bind {
            host,
            port,
            sndbuf,
            rcvbuf,
        } => ("bind", [*host as u32, *port as u32, *sndbuf, *rcvbuf]),
        Command::BindAny {
            host,
            port,
            sndbuf,
            rcvbuf,
        } => ("bindany", [*host as u32, *port as u32, *sndbuf, *rcvbuf]),
        Command::Send {
            host,
            port,
            to,
            dport,
            ..
        } => (
            "send",
            [*host as u32, *port as u32, *to as u32, *dport as u32],
        ),
        Command::Recv { host, port } => ("recv", [*host as u32, *port as u32, 0, 0]),
        Command::Cancel {
            host,
            port,
            to,
            dport,
        } => (
            "cancel",
            [*host as u32, *port as u32, *to as u32, *dport as u32],
        ),
        Command::Close { host, port } => ("close", [*host as u32, *port as u32, 0, 0]),
        Command::Open { host, to } => ("open", [*host as u32, *to as u32, 0, 0]),
        Command::Move { host, to, bytes } => ("move", [*host as u32, *to as u32, *bytes, 0]),
        Command::Cut { host, to } => ("cut", [*host as u32, *to as u32, 0, 0]),
        Command::Drain => ("drain", [0, 0, 0, 0]),
    }
}

/// The bytes that a command sends.
pub fn payload(command: &Command) -> &[u8] {
    match command {
        Command::Send { payload, .. } => payload.as_slice(),
        _ => &[],
    }
}
