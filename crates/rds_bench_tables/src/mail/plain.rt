//! Items through a plain unbounded queue.
ghost use Rattle.std.specs.Prelude.{◌≤◌, IfSome};

use crossbeam_queue::SegQueue;
use std::alloc::Global;
use std::sync::Wait;
use std::thread;
use std::thread::Threads;

fn puts(rt: &impl Wait, queue: &SegQueue<u32>, rounds: u32) {
    for i in 0..rounds {
        let _ = queue.push(rt, i);
    }
}

// Waits for one item.
fn next_item(rt: &impl Wait, queue: &SegQueue<u32>) {
    for _ in rt.forever() {
        if queue.pop(rt).is_some() {
            return;
        }
        thread::yield_now();
    }
}

// How many items were got.
fn gets(rt: &impl Wait, queue: &SegQueue<u32>, rounds: u32) -> u32
    ensures { result ≤ rounds }
{
    let mut got = 0;
    for _ in 0..rounds {
        next_item(rt, queue);
        got += 1;
    }
    got
}

// Each item is got as soon as it is put.
fn pairs(rt: &impl Wait, queue: &SegQueue<u32>, rounds: u32) -> u32
    ensures { result ≤ rounds }
{
    let mut got = 0;
    for i in 0..rounds {
        let _ = queue.push(rt, i);
        if queue.pop(rt).is_some() {
            got += 1;
        }
    }
    got
}

/// How many items one thread puts and gets, or `None` where memory runs out.
pub fn by_one<R: Wait>(rt: &R, alloc: Global, rounds: u32) -> Option<u32>
    ensures { IfSome result (λ n. n ≤ rounds) }
{
    let queue = SegQueue::new(alloc).ok()?;
    Some(pairs(rt, &queue, rounds))
}

/// How many items one thread gets that another puts.
pub fn by_two<R: Threads + Wait + Sync>(rt: &R, alloc: Global, rounds: u32) -> Option<u32>
    ensures { IfSome result (λ n. n ≤ rounds) }
{
    let queue = SegQueue::new(alloc).ok()?;
    let shared = &queue;
    let (_, got) = thread::join(
        rt,
        move || puts(rt, shared, rounds),
        move || gets(rt, shared, rounds),
    );
    Some(got)
}
