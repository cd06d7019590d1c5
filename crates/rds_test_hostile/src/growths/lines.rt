//! Two hosts with a line each, over streams in memory.
use super::super::exchange::{Both, send, two};
use super::tried::Tried;
use rds_line::Turn;
use rds_link::MemEnd;
use rds_test_hosts::LineHost;
use std::alloc::Global;
use std::net::Net;
use std::sync::Wait;
use std::thread::Threads;

/// How many datagrams go from the first host to the second.
const COUNT: u32 = 40;

/// How many are counted at most.
const MOST: usize = 1_000;

/// How often both lines turn.
const TURNS: u32 = 20;

pub fn line<R: Threads + Wait + Net>(rt: &R, alloc: Global) -> Option<Tried> {
    if two(rt, alloc).is_some() {
        return Some(Tried::of(false, 2));
    }
    let _hosts = two(rt, alloc)?;
    Some(Tried::of(true, 2))
}

pub fn turn<R: Threads + Wait + Net>(rt: &R, alloc: Global) -> Option<Tried> {
    let mut both = two(rt, alloc)?;
    for number in 0..COUNT {
        if !send(rt, alloc, &mut both.0, number) {
            return None;
        }
    }
    let again = turn_both(rt, &mut both)?;
    Some(Tried::of(again, received(rt, &mut both.1)))
}

// Turns both lines many times. Whether a turn was made again.
fn turn_both(rt: &impl Wait, both: &mut Both) -> Option<bool> {
    let mut again = false;
    for _ in 0..TURNS {
        again = turn_once(rt, &mut both.0)? || again;
        again = turn_once(rt, &mut both.1)? || again;
    }
    Some(again)
}

fn turn_once(rt: &impl Wait, host: &mut LineHost<MemEnd>) -> Option<bool> {
    if host.turn(rt) != Turn::Memory {
        return Some(false);
    }
    if host.turn(rt) == Turn::Memory {
        return None;
    }
    Some(true)
}

// How many datagrams wait.
fn received(rt: &impl Wait, host: &mut LineHost<MemEnd>) -> usize {
    for count in 0..MOST {
        if host.next(rt).is_none() {
            return count;
        }
    }
    MOST
}
