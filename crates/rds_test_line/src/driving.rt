//! Two lines that are driven by a seed: datagrams both ways, turns, receipts, cancellations and a cut by each host, in any order, over
//! ends of which some calls fail.
use rds_link::End;
use rds_model::Order;
use rds_test_hosts::pair::{
    Both, NEW, Outcome, Seed, Way, cancel, hosts, run_out, send_next, take_next,
};
use std::alloc::Global;
use std::net::Net;
use std::sync::Wait;
use std::test::*;
use std::thread::Threads;

// How many steps a seed draws.
const STEPS: u32 = 120;

// Where no call of an end before this one fails, datagrams come both ways.
const LATE: u32 = 40;

// One step of those that the seed draws from.
fn step<E: End>(
    rt: &impl Wait,
    alloc: Global,
    both: &mut Both<E>,
    ways: &mut [Way; 2],
    drawn: u32,
) {
    match drawn % 8 {
        0 | 1 => send_next(rt, alloc, &mut both.0, &mut ways[0]),
        2 => send_next(rt, alloc, &mut both.1, &mut ways[1]),
        3 | 4 => {
            both.0.turn(rt);
        }
        5 | 6 => {
            both.1.turn(rt);
        }
        _ => {
            take_next(rt, &mut both.1, &mut ways[0]);
            take_next(rt, &mut both.0, &mut ways[1]);
        }
    }
}

// Each host cuts the stream before the step that was drawn for it.
fn cut<E: End>(rt: &impl Wait, both: &mut Both<E>, at: u32, cuts: (u32, u32)) {
    if at == cuts.0 {
        both.0.ask(rt, Order::Cut);
    }
    if at == cuts.1 {
        both.1.ask(rt, Order::Cut);
    }
}

// One of the hosts takes back what it sent, where that is drawn.
fn take_back<E: End>(rt: &impl Wait, both: &mut Both<E>, ways: &mut [Way; 2], drawn: u32) {
    match drawn % 32 {
        0 => cancel(rt, &mut both.0, &mut ways[0]),
        1 => cancel(rt, &mut both.1, &mut ways[1]),
        _ => {}
    }
}

// So many steps that the seed draws, and two cuts before some of them, with cancellations between them or without.
fn drive<E: End>(
    rt: &impl Wait,
    alloc: Global,
    both: &mut Both<E>,
    seed: &mut Seed,
    cancels: bool,
) -> [Way; 2] {
    let mut ways = [NEW; 2];
    let cuts = (seed.draw() % STEPS, seed.draw() % STEPS);
    for at in 0..STEPS {
        cut(rt, both, at, cuts);
        if cancels {
            take_back(rt, both, &mut ways, seed.draw());
        }
        let drawn = seed.draw();
        step(rt, alloc, both, &mut ways, drawn);
    }
    ways
}

// What a run comes to, where these calls of each end fail.
fn run<R: Threads + Wait + Net>(
    rt: &R,
    alloc: Global,
    fail: Vec<u32>,
    seed: u32,
    cancels: bool,
) -> Option<Outcome> {
    let mut both = hosts(rt, alloc, fail)?;
    let ways = drive(rt, alloc, &mut both, &mut Seed::new(seed), cancels);
    Some(run_out(rt, &mut both, ways))
}

// Whether all came that was not taken back, where no call fails.
fn all_come<R: Threads + Wait + Net>(rt: &R, alloc: Global, seed: u32, cancels: bool) -> bool {
    let Some(outcome) = run(rt, alloc, Vec::new(alloc), seed, cancels) else {
        return false;
    };
    outcome.is_whole()
}

#[test]
fn all_that_went_comes_in_order(rt: HostRuntime) {
    for seed in 0..200 {
        assert!(rt; all_come(&rt, rt.alloc(), seed, false));
    }
}

#[test]
fn what_comes_beside_cancellations_is_in_order(rt: HostRuntime) {
    for seed in 0..200 {
        assert!(rt; all_come(&rt, rt.alloc(), seed, true));
    }
}

// Whether what came is right, where the call of each end with this number fails, and whether something came where that is late enough.
fn comes_in_order<R: Threads + Wait + Net>(rt: &R, alloc: Global, seed: u32, failing: u32) -> bool {
    let Ok(fail) = Vec::from_array(alloc, [failing]) else {
        return false;
    };
    let Some(outcome) = run(rt, alloc, fail, seed, true) else {
        return false;
    };
    outcome.is_right() && (failing < LATE || outcome.has_come())
}

#[test]
fn what_comes_over_failing_ends_is_in_order(rt: HostRuntime) {
    for seed in 0..200 {
        assert!(rt; comes_in_order(&rt, rt.alloc(), seed, 1 + 3 * seed));
    }
}
