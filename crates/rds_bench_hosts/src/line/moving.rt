//! How datagrams are moved, by one thread and by two.
use crate::line::hosts::{Both, Sender};
use rds_line::Turn;
use rds_link::MemEnd;
use rds_test_hosts::LineHost;
use std::sync::Wait;
use std::thread;
use std::thread::Threads;

/// How many datagrams of a batch are sent before the lines turn.
pub const BATCH: u32 = 64;

/// Sends so many batches of datagrams, each of which is moved before the next, and answers how many came.
pub fn by_one<R: Wait>(
    rt: &R,
    both: &mut Both,
    sender: &mut Sender,
    batches: u32,
    batch: u32,
) -> Option<u32> {
    let mut came = 0u32;
    for _ in 0..batches {
        send_batch(rt, both, sender, batch)?;
        came = came.wrapping_add(settle(rt, both));
    }
    Some(came)
}

fn send_batch<R: Wait>(rt: &R, both: &mut Both, sender: &mut Sender, batch: u32) -> Option<()> {
    for _ in 0..batch {
        if !sender.send(rt, &mut both.0) {
            return None;
        }
    }
    Some(())
}

// One line and then the other turns as long as it moves anything, until neither does. Answers how many datagrams came.
fn settle<R: Wait>(rt: &R, both: &mut Both) -> u32 {
    let mut came = 0u32;
    for _ in 0..u32::MAX {
        let first = turn_on(rt, &mut both.0);
        let second = turn_on(rt, &mut both.1);
        came = came.wrapping_add(take_all(rt, &mut both.1));
        if !first && !second {
            break;
        }
    }
    came
}

// Turns a line as long as it moves anything, and answers whether it did.
fn turn_on<R: Wait>(rt: &R, host: &mut LineHost<MemEnd>) -> bool {
    for turn in 0..u32::MAX {
        if host.turn(rt) != Turn::Moved {
            return turn > 0;
        }
    }
    true
}

// Takes all datagrams that came, and answers how many.
fn take_all<R: Wait>(rt: &R, host: &mut LineHost<MemEnd>) -> u32 {
    for came in 0..u32::MAX {
        if host.next(rt).is_none() {
            return came;
        }
    }
    u32::MAX
}

/// Sends so many datagrams by one thread, while another takes them, and answers the hosts and how many came.
pub fn by_two<R: Threads + Wait + Sync>(
    rt: &R,
    both: Both,
    sender: Sender,
    count: u32,
) -> (Both, u32) {
    let (first, second) = both;
    let (first, (second, came)) = thread::join(
        rt,
        move || sends(rt, first, sender, count),
        move || takes(rt, second, count),
    );
    ((first, second), came)
}

// Sends so many datagrams, and turns the line until all are acknowledged.
fn sends<R: Wait>(
    rt: &R,
    mut host: LineHost<MemEnd>,
    mut sender: Sender,
    count: u32,
) -> LineHost<MemEnd> {
    for _ in 0..count / BATCH {
        for _ in 0..BATCH {
            sender.send(rt, &mut host);
            host.turn(rt);
        }
    }
    for _ in 0..u32::MAX {
        if host.unacked() == 0 {
            break;
        }
        host.turn(rt);
    }
    host
}

// Turns the line until so many datagrams came, and all is acknowledged.
fn takes<R: Wait>(rt: &R, mut host: LineHost<MemEnd>, count: u32) -> (LineHost<MemEnd>, u32) {
    let mut came = 0u32;
    for _ in 0..u32::MAX {
        let turn = host.turn(rt);
        came = came.wrapping_add(take_all(rt, &mut host));
        if came >= count / BATCH * BATCH && turn == Turn::Idle {
            break;
        }
    }
    (host, came)
}
