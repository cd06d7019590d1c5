//! Items through the plain queue.
use crossbeam_queue::SegQueue;
use std::alloc::AllocGlobal;
use std::sync::Wait;

// How many of so many items are popped, each as soon as it was pushed.
fn passes(rt: &impl Wait, queue: &SegQueue<u32>, rounds: u32) -> u32 {
    for i in 0..rounds {
        let _ = queue.push(rt, i);
        if queue.pop(rt).is_none() {
            return i;
        }
    }
    rounds
}

/// How many of so many items pass through a queue, or `None` where memory runs out before the first.
pub fn passed<R: Wait + AllocGlobal>(rt: &R, rounds: u32) -> Option<u32> {
    let queue = SegQueue::new(rt.alloc()).ok()?;
    Some(passes(rt, &queue, rounds))
}
