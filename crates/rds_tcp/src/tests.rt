//! Tests of the threads of an end: what goes out before an end, and what they leave where a stream breaks.
use crate::dialing::dial;
use crate::handles::Handles;
use crate::pipe::{Pipe, Shared};
use crate::rings::rings;
use crate::{TcpEnd, TcpWire};
use rds_link::{End, Put, ROOM, Standing, Wire, WireError};
use std::alloc::Global;
use std::net::{Net, TcpListener, TcpStream};
use std::sync::atomic::{AtomicBool, Ordering};
use std::sync::{Arc, Wait};
use std::test::*;
use std::thread;
use std::thread::{Parker, Threads};
use std::time::Duration;

// Writes all the bytes, unless the stream is over first.
fn send_all<R: Wait>(rt: &R, end: &mut TcpEnd, bytes: &[u8]) {
    let mut rest = bytes;
    for _ in rt.forever() {
        if rest.is_empty() {
            return;
        }
        match end.write(rest) {
            Put::Took(taken) => rest = &rest[taken..],
            Put::Full => end.rest(rt),
            Put::Over => return,
        }
    }
}

// How many bytes wait for an end whose peer finished behind them.
fn waiting<R: Threads + Wait + Net>(rt: &R, wire: &mut TcpWire, bytes: &[u8]) -> Option<usize> {
    let Ok((mut a, mut b)) = wire.open(rt, 1, 2, 1) else {
        return None;
    };
    send_all(rt, &mut a, bytes);
    wire.give_back(rt, a);
    for _ in rt.forever() {
        if b.pipe.broken().is_some() {
            break;
        }
        b.rest(rt);
    }
    let Some(ring) = &mut b.inp else {
        return None;
    };
    Some(ring.slots())
}

#[test]
fn what_waits_goes_out_before_an_end_is_finished(rt: HostRuntime) -> Result<(), Fail> {
    let mut wire = TcpWire::new(&rt, rt.alloc());
    assert_eq!(rt; waiting(&rt, &mut wire, &[7; ROOM]), Some(ROOM));
    wire.finish(&rt);
    Ok(())
}

#[test]
fn openings_without_a_thread_are_faults(rt: HostRuntime) -> Result<(), Fail> {
    let mut wire = TcpWire::idle(rt.alloc());
    assert!(rt; matches!(wire.open(&rt, 1, 2, 1), Err(WireError::Fault)));
    assert!(rt; matches!(wire.open(&rt, 1, 2, 2), Err(WireError::Fault)));
    assert_eq!(rt; wire.faults(), 2);
    wire.finish(&rt);
    Ok(())
}

#[test]
fn openings_without_memory_for_the_crew_are_no_faults(rt: HostRuntime) -> Result<(), Fail> {
    let mut wire = TcpWire::of(rt.alloc(), Err(WireError::Memory));
    assert!(rt; matches!(wire.open(&rt, 1, 2, 1), Err(WireError::Memory)));
    assert_eq!(rt; wire.faults(), 0);
    wire.finish(&rt);
    Ok(())
}

// An end whose two threads are played by a test, and what it shares with them.
fn alone<R: Wait + Net<Listener = TcpListener, Stream = TcpStream>>(
    rt: &R,
    alloc: Global,
) -> Option<(TcpEnd, Arc<Shared>)> {
    let Ok((tcp, _)) = dial(rt) else {
        return None;
    };
    let (Ok(pipe), Ok((near, _)), Ok((standing, _))) = (
        Pipe::new(alloc, tcp),
        rings(alloc),
        Standing::pair(alloc),
    ) else {
        return None;
    };
    let Ok(shared) = pipe.share() else {
        return None;
    };
    Some((TcpEnd::new(pipe, near, standing), shared))
}

// Takes its time, and sets the flag.
fn dawdle<R: Wait>(rt: &R, is_done: &AtomicBool) {
    Parker::new().park_timeout(rt, Duration::from_millis(200));
    is_done.store(true, Ordering::SeqCst);
}

// Plays both threads. That which reads ends a while after the end has stopped.
fn end_late<R: Wait>(rt: &R, shared: &Shared, is_done: &AtomicBool) {
    shared.note_end(&shared.writer);
    let pause = Parker::new();
    for _ in rt.forever() {
        if shared.has_stopped() {
            break;
        }
        pause.park_timeout(rt, Duration::from_millis(1));
    }
    dawdle(rt, is_done);
    shared.note_end(&shared.reader);
}

// Whether the flag stands once the end is finished.
fn finished<R: Wait>(rt: &R, end: TcpEnd, is_done: &AtomicBool) -> bool {
    end.finish(rt);
    is_done.load(Ordering::SeqCst)
}

#[test]
fn an_end_is_finished_only_once_both_threads_have_ended(rt: HostRuntime) {
    let is_done = AtomicBool::new(false);
    let (handle, flag) = (&rt, &is_done);
    let Some((end, shared)) = alone(handle, rt.alloc()) else {
        panic!(rt; "no stream")
    };
    let threads = &*shared;
    let (_, was_late) = thread::join(
        handle,
        move || end_late(handle, threads, flag),
        move || finished(handle, end, flag),
    );
    assert!(rt; was_late);
}

#[test]
fn a_join_waits_for_the_end_of_a_thread(rt: HostRuntime) -> Result<(), Fail> {
    let is_done = Arc::new(rt.alloc(), AtomicBool::new(false))?;
    let flag = Arc::try_clone(&is_done)?;
    let mut threads = Handles::new(rt.alloc());
    let started = threads.start(&rt, move || dawdle(&rt, &flag));
    threads.join(&rt);
    assert!(rt; started.is_ok() && is_done.load(Ordering::SeqCst));
    Ok(())
}

// Lets go of two ends late.
fn let_go_late<R: Wait>(rt: &R, ends: (TcpEnd, TcpEnd), is_done: &AtomicBool) {
    dawdle(rt, is_done);
    drop(ends);
}

#[test]
fn a_wire_is_finished_only_once_all_threads_have_ended(rt: HostRuntime) -> Result<(), Fail> {
    let is_done = Arc::new(rt.alloc(), AtomicBool::new(false))?;
    let flag = Arc::try_clone(&is_done)?;
    let mut wire = TcpWire::new(&rt, rt.alloc());
    let Ok(ends) = wire.open(&rt, 1, 2, 1) else {
        panic!(rt; "no stream")
    };
    let Ok(thread) = thread::spawn(&rt, move || let_go_late(&rt, ends, &flag)) else {
        panic!(rt; "no thread")
    };
    wire.finish(&rt);
    let was_late = is_done.load(Ordering::SeqCst);
    thread.join(&rt);
    assert!(rt; was_late);
    Ok(())
}
