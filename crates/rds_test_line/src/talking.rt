//! Two lines that talk.
use rds_line::Turn;
use rds_link::End;
use rds_model::Order;
use rds_test_hosts::pair::{Both, hosts, send, turns};
use std::alloc::Global;
use std::net::Net;
use std::sync::Wait;
use std::test::*;
use std::thread::Threads;

// What becomes of "hello" between two hosts: what the last turns answered, whether it came, and how many datagrams are not
// acknowledged.
fn told<E: End>(
    rt: &impl Wait,
    alloc: Global,
    both: &mut Both<E>,
) -> Option<((Turn, Turn), bool, u32)> {
    if !send(rt, alloc, &mut both.0, b"hello") {
        return None;
    }
    let last = turns(rt, both, 8);
    let came = both.1.next(rt)?;
    Some((
        last,
        came.payload.as_slice() == b"hello".as_slice(),
        both.0.unacked(),
    ))
}

fn telling<R: Threads + Wait + Net>(rt: &R, alloc: Global) -> Option<((Turn, Turn), bool, u32)> {
    let mut both = hosts(rt, alloc, Vec::new(alloc))?;
    told(rt, alloc, &mut both)
}

#[test]
fn a_datagram_goes_through_two_lines(rt: HostRuntime) {
    let told = telling(&rt, rt.alloc());
    assert!(rt; told == Some(((Turn::Idle, Turn::Idle), true, 0)));
}

// What cuts lead to: what the last turns answer after the second of them, and after the third.
fn cut<E: End>(rt: &impl Wait, both: &mut Both<E>) -> Option<((Turn, Turn), (Turn, Turn))> {
    let asked = both.0.ask(rt, Order::Cut);
    turns(rt, both, 8);
    let again = both.1.ask(rt, Order::Cut);
    let second = turns(rt, both, 8);
    let at_last = both.0.ask(rt, Order::Cut);
    let third = turns(rt, both, 8);
    if asked && again && at_last {
        Some((second, third))
    } else {
        None
    }
}

fn cutting<R: Threads + Wait + Net>(rt: &R, alloc: Global) -> Option<((Turn, Turn), (Turn, Turn))> {
    let mut both = hosts(rt, alloc, Vec::new(alloc))?;
    cut(rt, &mut both)
}

#[test]
fn a_line_ends_after_its_last_stream(rt: HostRuntime) {
    let answers = cutting(&rt, rt.alloc());
    assert!(rt; answers == Some(((Turn::Idle, Turn::Idle), (Turn::Over, Turn::Over))));
}
