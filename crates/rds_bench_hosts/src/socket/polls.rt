//! Polls of a socket to which nothing has come.
use crate::socket::bound::bound;
use futures::task::Context;
use futures::test::MockTask;
use rds_fmap::Reader;
use rds_socket::Socket;
use std::alloc::AllocGlobal;
use std::random::RandomSource;
use std::sync::Wait;

// How many of so many polls find nothing, until one finds something.
fn polls(rt: &impl Wait, socket: &mut Socket<Reader>, cx: &mut Context<'_>, rounds: u32) -> u32 {
    for i in 0..rounds {
        if !socket.poll_recv(rt, cx).is_pending() {
            return i;
        }
    }
    rounds
}

fn polled(rt: &impl Wait, socket: &mut Socket<Reader>, task: &MockTask, rounds: u32) -> u32 {
    task.enter(|cx| polls(rt, socket, cx, rounds))
}

/// How many of so many polls by one task find nothing. `None` where memory runs out before the first.
pub fn pending<R: Wait + AllocGlobal + RandomSource>(rt: &R, rounds: u32) -> Option<u32> {
    let task = MockTask::new(rt).ok()?;
    let mut bound = bound(rt.alloc())?;
    Some(polled(rt, &mut bound.socket, &task, rounds))
}
