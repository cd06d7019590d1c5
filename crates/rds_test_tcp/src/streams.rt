//! Streams over real sockets.
use rds_link::{End, Got, Put, ROOM, Wire};
use rds_tcp::*;
use std::alloc::{AllocError, Global};
use std::net::Net;
use std::sync::Wait;
use std::test::*;
use std::thread;
use std::thread::Threads;

// More than all that holds bytes between two ends takes at once.
const MANY: usize = 8_000_000;

// Fills with bytes that look random.
fn fill(bytes: &mut [u8]) {
    let mut state = 1u32;
    for byte in bytes.iter_mut() {
        state = state.wrapping_mul(1_664_525).wrapping_add(1_013_904_223);
        *byte = (state >> 24) as u8;
    }
}

// Writes all the bytes, unless the stream is over first.
fn send_all<R: Wait>(rt: &R, end: &mut TcpEnd, bytes: &[u8]) {
    let mut rest = bytes;
    for _ in rt.forever() {
        if rest.is_empty() {
            return;
        }
        match end.write(rest) {
            Put::Took(taken) => rest = &rest[taken..],
            Put::Full => end.rest(rt),
            Put::Over => return,
        }
    }
}

// Reads until so many bytes have come or the stream is over.
fn get_all<R: Wait>(
    rt: &R,
    end: &mut TcpEnd,
    got: &mut Vec<u8>,
    wanted: usize,
) -> Result<(), AllocError> {
    let mut buf = [0u8; 4096];
    for _ in rt.forever() {
        if got.len() >= wanted {
            return Ok(());
        }
        match end.read(&mut buf) {
            Got::Bytes(came) => got.extend_from_slice(&buf[..came])?,
            Got::Nothing => end.rest(rt),
            Got::Over => return Ok(()),
        }
    }
    Ok(())
}

// Sends the bytes from one thread to another. Whether there was memory for what came.
fn carried<R: Threads + Wait + Sync>(
    rt: &R,
    a: &mut TcpEnd,
    b: &mut TcpEnd,
    bytes: &[u8],
    came: &mut Vec<u8>,
) -> bool {
    let (_, read) = thread::join(
        rt,
        move || send_all(rt, a, bytes),
        move || get_all(rt, b, came, bytes.len()),
    );
    read.is_ok()
}

// Whether the bytes come as they were sent.
fn carries<R: Threads + Wait + Sync>(
    rt: &R,
    alloc: Global,
    a: &mut TcpEnd,
    b: &mut TcpEnd,
    bytes: &[u8],
) -> bool {
    let mut got = Vec::new(alloc);
    carried(rt, a, b, bytes, &mut got) && got.as_slice() == bytes
}

// Whether many bytes come as they were sent, both ways.
fn carries_both_ways<R: Threads + Wait + Net + Sync>(
    rt: &R,
    alloc: Global,
    wire: &mut TcpWire,
    bytes: &[u8],
) -> bool {
    let Ok((mut a, mut b)) = wire.open(rt, 1, 2, 1) else {
        return false;
    };
    let all = carries(rt, alloc, &mut a, &mut b, bytes)
        && carries(rt, alloc, &mut b, &mut a, bytes);
    wire.give_back(rt, a);
    wire.give_back(rt, b);
    all
}

#[test]
fn many_bytes_come_in_order_both_ways(rt: HostRuntime) -> Result<(), Fail> {
    let alloc = rt.alloc();
    let mut bytes = vec![in alloc; 0u8; MANY]?;
    fill(&mut bytes);
    let mut wire = TcpWire::new(&rt, alloc);
    let all = carries_both_ways(&rt, alloc, &mut wire, &bytes);
    assert!(rt; all && wire.faults() == 0 && !wire.tells());
    wire.finish(&rt);
    Ok(())
}

// Writes, shuts the end if asked to, and lets it go.
fn let_go(mut end: TcpEnd, shuts: bool) {
    end.write(b"hello");
    if shuts {
        end.shut();
    }
}

// How many faults an end had once its stream is over. The other end is shut or, without a shut, let go.
fn over<R: Threads + Wait + Net>(
    rt: &R,
    wire: &mut TcpWire,
    got: &mut Vec<u8>,
    shuts: bool,
) -> Option<u64> {
    let Ok((a, mut b)) = wire.open(rt, 1, 2, 1) else {
        return None;
    };
    let_go(a, shuts);
    let read = get_all(rt, &mut b, got, 100);
    wire.give_back(rt, b);
    read.ok()?;
    Some(wire.faults())
}

#[test]
fn a_cut_is_no_fault_of_the_other_end(rt: HostRuntime) {
    let mut got = Vec::new(rt.alloc());
    let mut wire = TcpWire::new(&rt, rt.alloc());
    assert!(rt; over(&rt, &mut wire, &mut got, true) == Some(0));
    wire.finish(&rt);
}

#[test]
fn a_stream_that_ends_without_a_shut_is_one_fault(rt: HostRuntime) {
    let mut got = Vec::new(rt.alloc());
    let mut wire = TcpWire::new(&rt, rt.alloc());
    assert!(rt; over(&rt, &mut wire, &mut got, false) == Some(1));
    wire.finish(&rt);
}

// Writes until there was no room for more than 500 times.
fn fill_up<R: Wait>(rt: &R, end: &mut TcpEnd) {
    let mut fulls = 0u32;
    for _ in rt.forever() {
        if end.write(&[7; ROOM]) != Put::Full {
            continue;
        }
        end.rest(rt);
        fulls = fulls.saturating_add(1);
        if fulls > 500 {
            return;
        }
    }
}

// Writes until there is no room, while nobody reads, and finishes.
fn overfill<R: Threads + Wait + Net>(rt: &R, wire: &mut TcpWire) -> bool {
    let Ok((mut a, _b)) = wire.open(rt, 1, 2, 1) else {
        return false;
    };
    fill_up(rt, &mut a);
    wire.give_back(rt, a);
    wire.fulls() > 500
}

#[test]
fn an_end_whose_peer_never_reads_can_be_finished(rt: HostRuntime) {
    let mut wire = TcpWire::new(&rt, rt.alloc());
    assert!(rt; overfill(&rt, &mut wire));
    wire.finish(&rt);
}
