//! Two lines, each with its host on a thread of its own: both send, take back, turn, receive and cut at once, as seeds draw, over ends
//! of which some calls fail.
use rds_link::MemEnd;
use rds_model::Order;
use rds_test_hosts::LineHost;
use rds_test_hosts::pair::{
    Both, NEW, Outcome, Seed, Way, cancel, hosts, run_out, send_next, take_next,
};
use std::alloc::Global;
use std::net::Net;
use std::sync::Wait;
use std::test::*;
use std::thread;
use std::thread::Threads;

// How many steps each host has.
const STEPS: u32 = 2_000;

// What a host does by itself: how its datagrams went, and how those of the other one came.
#[derive(Clone, Copy)]
struct Work {
    went: Way,
    came: Way,
    seed: Seed,
    cut_at: u32,
    cancels: bool,
}

// A host that has done nothing yet, and cuts before the step that its seed draws. With an odd seed it takes back too.
fn begun(seed: u32) -> Work {
    let cancels = seed % 2 == 1;
    let mut seed = Seed::new(seed);
    let cut_at = seed.draw() % STEPS;
    Work {
        went: NEW,
        came: NEW,
        seed,
        cut_at,
        cancels,
    }
}

// The host sends, takes what came or turns its line, as its seed draws.
fn step<R: Wait>(rt: &R, alloc: Global, host: &mut LineHost<MemEnd>, work: &mut Work) {
    match work.seed.draw() % 16 {
        0 => send_next(rt, alloc, host, &mut work.went),
        1..=3 => {
            take_next(rt, host, &mut work.came);
        }
        _ => {
            host.turn(rt);
        }
    }
}

// All steps of a host, with its cut before one of them and its cancellations between them.
fn act<R: Wait>(rt: &R, alloc: Global, host: &mut LineHost<MemEnd>, work: &mut Work) {
    for at in 0..STEPS {
        if at == work.cut_at {
            host.ask(rt, Order::Cut);
        }
        if work.cancels && work.seed.draw() % 256 == 0 {
            cancel(rt, host, &mut work.went);
        }
        step(rt, alloc, host, work);
    }
}

// Both hosts act at once.
fn act_both<R: Threads + Wait + Sync>(
    rt: &R,
    alloc: Global,
    both: &mut Both<MemEnd>,
    works: &mut (Work, Work),
) {
    let (first, second) = both;
    let (forth, back) = works;
    thread::join(
        rt,
        move || act(rt, alloc, first, forth),
        move || act(rt, alloc, second, back),
    );
}

// A way on which this went, and that came.
fn way(went: Way, came: Way) -> Way {
    Way {
        sent: went.sent,
        loose: went.loose,
        ..came
    }
}

// What a run comes to, where these calls of each end fail.
fn run<R: Threads + Wait + Net + Sync>(
    rt: &R,
    alloc: Global,
    fail: Vec<u32>,
    seed: u32,
) -> Option<Outcome> {
    let mut both = hosts(rt, alloc, fail)?;
    let mut works = (begun(seed), begun(seed.wrapping_add(1_000)));
    act_both(rt, alloc, &mut both, &mut works);
    let (forth, back) = works;
    let ways = [way(forth.went, back.came), way(back.went, forth.came)];
    Some(run_out(rt, &mut both, ways))
}

// Whether all came that was not taken back, where no call fails.
fn all_come<R: Threads + Wait + Net + Sync>(rt: &R, alloc: Global, seed: u32) -> bool {
    let Some(outcome) = run(rt, alloc, Vec::new(alloc), seed) else {
        return false;
    };
    outcome.is_whole()
}

#[test]
fn two_threads_deliver_all_in_order(rt: HostRuntime) {
    for seed in 0..400 {
        assert!(rt; all_come(&rt, rt.alloc(), seed));
    }
}

// Whether what came is right, where the call of each end with this number fails.
fn comes_in_order<R: Threads + Wait + Net + Sync>(
    rt: &R,
    alloc: Global,
    seed: u32,
    failing: u32,
) -> bool {
    let Ok(fail) = Vec::from_array(alloc, [failing]) else {
        return false;
    };
    let Some(outcome) = run(rt, alloc, fail, seed) else {
        return false;
    };
    outcome.is_right()
}

#[test]
fn two_threads_deliver_in_order_over_failing_ends(rt: HostRuntime) {
    for seed in 0..200 {
        assert!(rt; comes_in_order(&rt, rt.alloc(), seed, 1 + 15 * seed));
    }
}
