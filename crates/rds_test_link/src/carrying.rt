//! Bytes that go from one thread to another.
ghost use Rattle.std.specs.Prelude.{◌<◌, length};

use rds_link::*;
use std::alloc::Global;
use std::net::Net;
use std::sync::Wait;
use std::test::*;
use std::thread;
use std::thread::Threads;

const MEGABYTE: usize = 1_048_576;

// The next of a row of numbers that look random.
fn next(state: &mut u32) -> usize {
    *state = state.wrapping_mul(1_664_525).wrapping_add(1_013_904_223);
    (*state >> 16) as usize
}

// Fills with bytes that look random.
fn fill(bytes: &mut [u8]) {
    let mut state = 1;
    for byte in bytes.iter_mut() {
        *byte = (next(&mut state) % 256) as u8;
    }
}

// Writes a piece of the bytes of at most this size, and gives what is left of them: nothing once the stream is over.
fn send_piece<'a, E: End, R: Wait>(rt: &R, end: &mut E, bytes: &'a [u8], most: usize) -> &'a [u8]
    requires some { 0 < length bytes.now }
    requires most { 0 < most }
{
    match end.write(&bytes[..most.min(bytes.len())]) {
        Put::Took(taken) => &bytes[taken..],
        Put::Full => {
            end.rest(rt);
            bytes
        }
        Put::Over => &[],
    }
}

// Writes the bytes in pieces of 1 to 9,000, until they are taken or the stream is over.
fn send_all<E: End, R: Wait>(rt: &R, end: &mut E, bytes: &[u8]) {
    let mut state = 2;
    let mut rest = bytes;
    for _ in rt.forever() {
        if rest.is_empty() {
            return;
        }
        rest = send_piece(rt, end, rest, next(&mut state) % 9000 + 1);
    }
}

// Reads in pieces of 1 to 4,096, until so many bytes have come or the stream is over. Whether there was memory for all.
fn get_all<E: End, R: Wait>(rt: &R, end: &mut E, got: &mut Vec<u8>, wanted: usize) -> bool {
    let mut state = 3;
    let mut buf = [0u8; 4096];
    for _ in rt.forever() {
        let count = next(&mut state) % 4096 + 1;
        if got.len() >= wanted {
            return true;
        }
        match end.read(&mut buf[..count]) {
            Got::Bytes(came) => {
                if got.extend_from_slice(&buf[..came]).is_err() {
                    return false;
                }
            }
            Got::Nothing => end.rest(rt),
            Got::Over => return true,
        }
    }
    true
}

// Sends the bytes from one thread to another, and cuts the stream behind them if asked to. Whether what came is a
// beginning of them, and all of them where nothing was cut.
fn carries<E: End + Send, R: Threads + Wait + Sync>(
    rt: &R,
    ends: (E, E),
    mut got: Vec<u8>,
    sent: &[u8],
    cuts: bool,
) -> bool {
    let (mut a, mut b) = ends;
    let (a, b, came) = (&mut a, &mut b, &mut got);
    let (_, read) = thread::join(
        rt,
        move || {
            send_all(rt, a, sent);
            if cuts {
                a.shut();
            }
        },
        move || get_all(rt, b, came, MEGABYTE),
    );
    read && sent.starts_with(&got) && (cuts || got.len() == sent.len())
}

#[test]
fn a_megabyte_in_random_pieces_arrives_as_it_was_sent(rt: HostRuntime) -> Result<(), Fail> {
    let alloc = rt.alloc();
    let mut sent = vec![in alloc; 0u8; MEGABYTE]?;
    fill(&mut sent);
    assert!(rt; is_carried(&rt, alloc, &sent, false));
    Ok(())
}

fn is_carried<R: Threads + Wait + Net + Sync>(
    rt: &R,
    alloc: Global,
    sent: &[u8],
    cuts: bool,
) -> bool {
    let mut wire = MemWire::new(alloc, Vec::new(alloc), Vec::new(alloc));
    let Ok(ends) = wire.open(rt, 1, 2, 1) else {
        return false;
    };
    carries(rt, ends, Vec::new(alloc), sent, cuts)
}

#[test]
fn cuts_at_every_byte_of_a_frame_leave_a_prefix(rt: HostRuntime) {
    let mut frame = [0u8; 60];
    fill(&mut frame);
    for count in 0..=60 {
        assert!(rt; is_carried(&rt, rt.alloc(), &frame[..count], true));
    }
}
