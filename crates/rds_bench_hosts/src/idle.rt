//! What eight hosts cost that have nothing to do. They are connected over TCP, each line has its worker, and each caller waits at its
//! gate.
mod pause;
mod running;

use running::{run_in_memory, run_over_tcp};
use std::io::Print;
use std::net::{Net, TcpListener, TcpStream};
use std::sync::Wait;
use std::thread::Threads;
use std::time::Clock;

/// Writes how a run over streams in memory ends in which nobody waits.
pub fn show<R: Print + Threads + Wait + Net + Clock + Sync>(rt: &R) -> anyhow::Result<()>
where
    R: AllocGlobal,
{
    let status = run_in_memory(rt, rt.alloc())?;
    println!(rt; "idle: eight hosts ended with status {status}")?;
    Ok(())
}

/// Writes how a run ends in which each caller waits for so many seconds.
pub fn measure<R: Print + Threads + Wait + Clock + Copy + Send + Sync + 'static>(
    rt: &R,
    seconds: u64,
) -> anyhow::Result<()>
where
    R: Net<Listener = TcpListener, Stream = TcpStream> + AllocGlobal,
{
    let status = run_over_tcp(rt, rt.alloc(), seconds)?;
    println!(rt; "eight hosts waited for {seconds} seconds and ended with status {status}")?;
    Ok(())
}
