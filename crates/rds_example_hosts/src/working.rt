//! What is done beside each other: the sockets talk, and a worker turns the line of each host.
ghost use Rattle.std.specs.Prelude.{◌≡◌, None, IfOk};
ghost use Rattle.rds_link.specs.Memory.{memory_means};
ghost use Rattle.rds_host.specs.Lines.{AreTurned, pair_of};
ghost use Rattle.rds_example_hosts.specs.Hosts.{IsHost, SocketKeeps};

use crate::hosts::{Host, Lines};
use crate::talking::{Sockets, talk};
use rds_fmap::Reader;
use rds_host::laws::{host_keeps, turned_keeps};
use rds_host::{Stop, work};
use rds_link::MemEnd;
use rds_socket::Socket;
use std::alloc::AllocGlobal;
use std::io::Print;
use std::random::RandomSource;
use std::sync::Wait;
use std::thread;
use std::thread::Threads;

/// The sockets talk, while a worker turns the line of each host.
pub fn run<R: Print + Threads + Wait + AllocGlobal + RandomSource + Sync>(
    rt: &R,
    a: Host,
    b: Host,
) -> anyhow::Result<(Host, Host)>
    requires a { IsHost a.socket a.lines.items }
    requires b { IsHost b.socket b.lines.items }
    ensures a { IfOk result (λ after. IsHost after.0.socket after.0.lines.items) }
    ensures b { IfOk result (λ after. IsHost after.1.socket after.1.lines.items) }
{
    host_keeps::<MemEnd>();
    turned_keeps::<MemEnd>();
    let Host {
        socket: a,
        lines: lines_a,
    } = a;
    let Host {
        socket: b,
        lines: lines_b,
    } = b;
    let (talked, (lines_a, lines_b)) = run_beside(rt, a, b, lines_a, lines_b);
    let (a, b) = talked?;
    Ok((
        Host {
            socket: a,
            lines: lines_a,
        },
        Host {
            socket: b,
            lines: lines_b,
        },
    ))
}

// The talk of the sockets, beside the workers.
fn run_beside<R: Print + Threads + Wait + AllocGlobal + RandomSource + Sync>(
    rt: &R,
    a: Socket<Reader>,
    b: Socket<Reader>,
    lines_a: Lines,
    lines_b: Lines,
) -> (anyhow::Result<Sockets>, (Lines, Lines))
    requires a { a.told ≡ None }
    requires b { b.told ≡ None }
    ensures a { IfOk result.0 (λ after. SocketKeeps a after.0) }
    ensures b { IfOk result.0 (λ after. SocketKeeps b after.1) }
    ensures lines_a { AreTurned memory_means pair_of lines_a.items result.1.0.items }
    ensures lines_b { AreTurned memory_means pair_of lines_b.items result.1.1.items }
{
    let stop = Stop::new();
    let stop = &stop;
    thread::join(
        rt,
        move || -> anyhow::Result<Sockets>
            requires a { a.told ≡ None }
            requires b { b.told ≡ None }
            ensures a { IfOk result (λ after. SocketKeeps a after.0) }
            ensures b { IfOk result (λ after. SocketKeeps b after.1) }
        { talk_then_stop(rt, a, b, stop) },
        move || -> (Lines, Lines)
            ensures a { AreTurned memory_means pair_of lines_a.items result.0.items }
            ensures b { AreTurned memory_means pair_of lines_b.items result.1.items }
        { work_both(rt, lines_a, lines_b, stop) },
    )
}

// The sockets talk, and then the workers are told to stop.
fn talk_then_stop<R: Print + Wait + AllocGlobal + RandomSource>(
    rt: &R,
    a: Socket<Reader>,
    b: Socket<Reader>,
    stop: &Stop,
) -> anyhow::Result<Sockets>
    requires a { a.told ≡ None }
    requires b { b.told ≡ None }
    ensures a { IfOk result (λ after. SocketKeeps a after.0) }
    ensures b { IfOk result (λ after. SocketKeeps b after.1) }
{
    let talked = talk(rt, a, b);
    stop.set();
    talked
}

// A worker for the line of each host, until both have seen that they are to stop.
fn work_both<R: Threads + Wait + Sync>(rt: &R, a: Lines, b: Lines, stop: &Stop) -> (Lines, Lines)
    ensures a { AreTurned memory_means pair_of a.items result.0.items }
    ensures b { AreTurned memory_means pair_of b.items result.1.items }
{
    thread::join(
        rt,
        move || -> Lines
            ensures { AreTurned memory_means pair_of a.items result.items }
        { work(rt, a, stop) },
        move || -> Lines
            ensures { AreTurned memory_means pair_of b.items result.items }
        { work(rt, b, stop) },
    )
}
