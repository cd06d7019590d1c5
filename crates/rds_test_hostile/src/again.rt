//! Many runs in one process: for each byte that comes in, a script is played, run over memory and run over TCP, and one that the
//! round's number generates is run over memory.
use rds_link::{MemSink, MemSource, MemWire, OpenGate, Source, Wire};
use rds_run::rds_main;
use rds_tcp::TcpWire;
use std::alloc::{AllocError, Global};
use std::io::Print;
use std::net::{Net, TcpListener, TcpStream};
use std::sync::Wait;
use std::thread::Threads;

/// Three hosts with a socket each, all of which send; two streams are cut, and some of what was sent is taken back.
const SCRIPT: &[u8] = b"hosts 3\n\
bind A 4000 65536 65536\nbind B 4001 65536 65536\nbind C 4002 65536 65536\n\
send A 4000 B 4001 f:20000\nsend B 4001 A 4000 t:hello\nsend C 4002 B 4001 f:3000\n\
open A B\nopen B C\nmove A B 8300\ncut A B\nmove C B 8290\n\
send A 4000 C 4002 t:first\nsend A 4000 C 4002 f:1000\ncancel A 4000 C 4002\n\
send B 4001 C 4002 f:500\ncut B C\ndrain\n\
recv A 4000\nrecv B 4001\nrecv B 4001\nrecv C 4002\n";

/// How many sends a generated script has.
const SENDS: u32 = 200;

/// For each byte of the source makes a round, and writes how its runs ended.
pub fn show<S: Source, R: Print + Threads + Wait + Copy + Send + Sync + 'static>(
    rt: &R,
    alloc: Global,
    source: &mut S,
) -> anyhow::Result<()>
where
    R: Net<Listener = TcpListener, Stream = TcpStream>,
{
    let mut byte = [0u8];
    for round in 0..u64::MAX {
        if source.read(&mut byte)? == 0 {
            return Ok(());
        }
        tell(rt, alloc, round)?;
    }
    Ok(())
}

/// Writes how the runs of a round ended.
pub fn tell<R: Print + Threads + Wait + Copy + Send + Sync + 'static>(
    rt: &R,
    alloc: Global,
    round: u64,
) -> anyhow::Result<()>
where
    R: Net<Listener = TcpListener, Stream = TcpStream>,
{
    let play = over_memory(rt, alloc, words(alloc, &["play"])?)?;
    let memory = over_memory(rt, alloc, words(alloc, &["run"])?)?;
    let tcp = over_tcp(rt, alloc)?;
    let generated = over_memory(rt, alloc, gen_words(alloc, round)?)?;
    println!(rt; "play {play}, memory {memory}, tcp {tcp}, generated {generated}")?;
    Ok(())
}

// The status of a run over TCP.
fn over_tcp<R: Threads + Wait + Copy + Send + Sync + 'static>(
    rt: &R,
    alloc: Global,
) -> Result<u8, AllocError>
where
    R: Net<Listener = TcpListener, Stream = TcpStream>,
{
    let words = words(alloc, &["run", "--wire", "tcp"])?;
    let mut wire = TcpWire::new(rt, alloc);
    let status = status(rt, alloc, &words, &mut wire);
    wire.finish(rt);
    status
}

// The status for these words, where none of them names TCP.
fn over_memory<R: Threads + Wait + Net + Sync>(
    rt: &R,
    alloc: Global,
    words: Vec<String>,
) -> Result<u8, AllocError> {
    let mut wire = MemWire::new(alloc, Vec::new(alloc), Vec::new(alloc));
    status(rt, alloc, &words, &mut wire)
}

// The status of the whole program for these words and the script, where this wire stands for TCP.
fn status<W: Wire, R: Threads + Wait + Net + Sync>(
    rt: &R,
    alloc: Global,
    words: &[String],
    wire: &mut W,
) -> Result<u8, AllocError>
where
    W::End: Send,
{
    let mut source = MemSource::new(SCRIPT.to_vec(alloc)?, Vec::new(alloc));
    let mut sink = MemSink::new(alloc, Vec::new(alloc));
    Ok(rds_main(rt, alloc, words, &mut source, &mut sink, wire, &OpenGate))
}

// The words of a run of the script that this seed generates.
fn gen_words(alloc: Global, seed: u64) -> Result<Vec<String>, AllocError> {
    let mut words = words(alloc, &["gen"])?;
    words.push(format!(in alloc; "{SENDS}")?)?;
    words.push(format!(in alloc; "{seed}")?)?;
    Ok(words)
}

fn words(alloc: Global, texts: &[&str]) -> Result<Vec<String>, AllocError> {
    let mut words = Vec::new(alloc);
    for text in texts {
        words.push(String::from_str(alloc, text)?)?;
    }
    Ok(words)
}
