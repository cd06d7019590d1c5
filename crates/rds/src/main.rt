//! Reliable Datagram Sockets: the program `rds`.
#![tactic(auto)]

use rds_link::{OpenGate, StdSink, StdSource};
use rds_run::rds_main;
use rds_tcp::TcpWire;
use std::alloc::AllocError;
use std::process::ExitCode;
use std::rt::Env;
use std::{env, io};

/// The status where memory runs out before the words are read.
const MEMORY: u8 = 6;

fn main(rt: HostRuntime) -> ExitCode {
    let Ok(words) = words(&rt) else {
        return ExitCode::from(MEMORY);
    };
    let mut source = StdSource::new(rt.reader());
    let mut sink = StdSink::new(io::writer(&rt));
    let alloc = rt.alloc();
    let mut wire = if may_name_tcp(&words) {
        TcpWire::new(&rt, alloc)
    } else {
        TcpWire::idle(alloc)
    };
    let status = rds_main(
        &rt,
        alloc,
        &words,
        &mut source,
        &mut sink,
        &mut wire,
        &OpenGate,
    );
    wire.finish(&rt);
    ExitCode::from(status)
}

// Whether the words may name the wire over TCP: its name is a word of its own, or stands behind `--wire=`.
fn may_name_tcp(words: &[String]) -> bool {
    words.iter().any(|word| word.as_str().ends_with("tcp"))
}

// The words behind the program's name, or none where one of them isn't UTF-8: no command has none. It fails where memory runs out.
fn words<R: Env + AllocGlobal>(rt: &R) -> Result<Vec<String>, AllocError> {
    match env::args(rt) {
        Ok(words) => words.skip(1).collect(rt.alloc()),
        Err(error) if error.kind() == io::ErrorKind::OutOfMemory => Err(AllocError),
        Err(_) => Ok(Vec::new(rt.alloc())),
    }
}
