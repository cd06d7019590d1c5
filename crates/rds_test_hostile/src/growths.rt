//! Calls that can answer that memory ran out: each is made once, and once more where it answered so. The line of a call has a number
//! that tells what came of it, however often it was made.
mod connections;
mod hosts;
mod lines;
mod lower;
mod payloads;
mod runs;
mod scripts;
mod sockets;
mod stores;
mod tables;
mod texts;
mod tried;
mod upper;

use super::MEMORY;
use std::alloc::Global;
use std::io::Print;
use std::net::Net;
use std::process::ExitCode;
use std::sync::Wait;
use std::thread::Threads;
use tried::Tried;

/// The status where a call had to be made twice.
const AGAIN: u8 = 10;

/// Makes each call, and writes what came of it. The status is the highest of them.
pub fn show_all<R: Print + Threads + Wait + Net + Sync>(rt: &R, alloc: Global) -> ExitCode {
    let mut status = 0;
    for name in lower::CALLS {
        status = tell(rt, name, lower::made(alloc, name)).max(status);
    }
    for name in upper::CALLS {
        status = tell(rt, name, upper::made(rt, alloc, name)).max(status);
    }
    ExitCode::from(status)
}

/// Makes the call with this name, and writes what came of it.
pub fn show<R: Print + Threads + Wait + Net + Sync>(rt: &R, alloc: Global, name: &str) -> ExitCode {
    let tried = if lower::CALLS.contains(&name) {
        lower::made(alloc, name)
    } else {
        upper::made(rt, alloc, name)
    };
    ExitCode::from(tell(rt, name, tried))
}

// Writes what came of a call, and answers the status. Where there was no memory for what the call needs, nothing came of it.
fn tell(rt: &impl Print, name: &str, tried: Option<Tried>) -> u8 {
    let Some(Tried { again, value }) = tried else {
        return MEMORY;
    };
    if println!(rt; "{name}: {value}").is_err() {
        return 4;
    }
    if again { AGAIN } else { 0 }
}
