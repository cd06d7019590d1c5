//! A whole exchange of two lines with a cut in its middle, which goes on where memory runs out: an order that wasn't taken is given
//! again, and a turn that had no memory is made again.
mod hosts;
mod way;

use super::MEMORY;
pub use hosts::{Both, two};
use rds_link::MemEnd;
use rds_model::Order;
use rds_test_hosts::LineHost;
use std::alloc::Global;
use std::io::Print;
use std::net::Net;
use std::process::ExitCode;
use std::sync::Wait;
use std::thread::Threads;
use way::Way;
pub use way::send;

/// How many datagrams go each way.
const COUNT: u32 = 40;

/// How often an order is given that wasn't taken.
const TRIES: u32 = 3;

/// How often both lines turn at the end.
const TURNS: u32 = 400;

/// Writes how many datagrams came each way, and whether each of them was the next one. Where there is no memory to begin with it
/// writes nothing.
pub fn show<R: Print + Threads + Wait + Net>(rt: &R, alloc: Global) -> anyhow::Result<ExitCode> {
    let Some(mut both) = two(rt, alloc) else {
        return Ok(ExitCode::from(MEMORY));
    };
    let mut there = Way::default();
    let mut back = Way::default();
    exchange(rt, alloc, &mut both, &mut there, &mut back);
    println!(rt; "{there} there, {back} back")?;
    Ok(ExitCode::SUCCESS)
}

// Sends all datagrams both ways, with a cut in the middle, and takes all that come.
fn exchange<R: Wait>(rt: &R, alloc: Global, both: &mut Both, there: &mut Way, back: &mut Way) {
    for at in 0..COUNT {
        there.send_next(rt, alloc, &mut both.0);
        back.send_next(rt, alloc, &mut both.1);
        if at == COUNT / 2 {
            cut(rt, &mut both.1);
        }
        turn(rt, both, there, back);
    }
    for _ in 0..TURNS {
        turn(rt, both, there, back);
    }
}

// Both lines turn, and both hosts take what came.
fn turn<R: Wait>(rt: &R, both: &mut Both, there: &mut Way, back: &mut Way) {
    both.0.turn(rt);
    both.1.turn(rt);
    there.take_next(rt, &mut both.1);
    back.take_next(rt, &mut both.0);
}

// Has a host cut its stream.
fn cut<R: Wait>(rt: &R, host: &mut LineHost<MemEnd>) {
    for _ in 0..TRIES {
        if host.ask(rt, Order::Cut) {
            return;
        }
    }
}
