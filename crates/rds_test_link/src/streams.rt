//! Streams in memory, from one thread.
ghost use Rattle.std.specs.Prelude.{◌≡◌, ◌<◌, true, length};

use rds_link::*;
use std::alloc::Global;
use std::net::Net;
use std::sync::Wait;
use std::test::*;
use std::thread::Threads;

// Opens a stream and gives both of its ends back, and answers whether it could: then as many ends are out as before.
fn is_given_back<W: Wire, R: Threads + Wait + Net>(rt: &R, wire: &mut W) -> bool
    ensures { result ≡ true → W.out wire.old < 1000 → W.out wire.new ≡ W.out wire.old }
{
    let Ok((a, b)) = wire.open(rt, 1, 2, 1) else {
        return false;
    };
    wire.give_back(rt, a);
    wire.give_back(rt, b);
    true
}

#[test]
fn both_ends_are_given_back(rt: HostRuntime) {
    let alloc = rt.alloc();
    let mut wire = MemWire::new(alloc, Vec::new(alloc), Vec::new(alloc));
    assert!(rt; is_given_back(&rt, &mut wire));
}

// The answers to a write, a read of what came and a read of nothing.
fn answers<E: End>(a: &mut E, b: &mut E) -> (Put, Got, Got) {
    let mut buf = [0u8; 8];
    let sent = b.write(b"hello");
    a.write(b"hi");
    let came = b.read(&mut buf);
    (sent, came, b.read(&mut buf))
}

// These answers of an end of a stream, and how many faults the wire counts once it has the end back.
fn answered<W: Wire, R: Threads + Wait + Net>(
    rt: &R,
    wire: &mut W,
) -> Result<((Put, Got, Got), u64), WireError> {
    let (mut a, mut b) = wire.open(rt, 1, 2, 1)?;
    let all = answers(&mut a, &mut b);
    wire.give_back(rt, b);
    Ok((all, wire.counts().faults))
}

// Whether these are the answers and the faults of an end whose call with this number fails.
fn is_failing<R: Threads + Wait + Net>(
    rt: &R,
    alloc: Global,
    number: u32,
    answers: (Put, Got, Got),
    faults: u64,
) -> bool {
    let Ok(fail) = Vec::from_array(alloc, [number]) else {
        return false;
    };
    let mut wire = MemWire::new(alloc, Vec::new(alloc), fail);
    answered(rt, &mut wire) == Ok((answers, faults))
}

#[test]
fn every_call_of_an_end_fails_in_turn(rt: HostRuntime) {
    let alloc = rt.alloc();
    let over = (Put::Over, Got::Over, Got::Over);
    assert!(rt; is_failing(&rt, alloc, 1, over, 1));
    let over = (Put::Took(5), Got::Over, Got::Over);
    assert!(rt; is_failing(&rt, alloc, 2, over, 1));
    let over = (Put::Took(5), Got::Bytes(2), Got::Over);
    assert!(rt; is_failing(&rt, alloc, 3, over, 1));
    let none = (Put::Took(5), Got::Bytes(2), Got::Nothing);
    assert!(rt; is_failing(&rt, alloc, 4, none, 0));
}

// Whether an opening fails.
fn refused<W: Wire, R: Threads + Wait + Net>(rt: &R, wire: &mut W) -> bool {
    match wire.open(rt, 1, 2, 1) {
        Ok((_a, _b)) => false,
        Err(error) => error == WireError::Fault,
    }
}

// Whether the first, the second and the fourth opening fail, and not the third.
fn refuses_three<W: Wire, R: Threads + Wait + Net>(rt: &R, wire: &mut W) -> bool {
    let first = refused(rt, wire) && refused(rt, wire);
    first && !refused(rt, wire) && refused(rt, wire) && wire.counts().faults == 3
}

// The same of a wire in memory whose openings with these numbers fail.
fn fails_to_open<R: Threads + Wait + Net>(rt: &R, alloc: Global, fail: Vec<u32>) -> bool {
    let mut wire = MemWire::new(alloc, fail, Vec::new(alloc));
    let refuses = refuses_three(rt, &mut wire) && wire.faults() == 3;
    refuses && wire.can_fail() && wire.tells()
}

#[test]
fn openings_fail_by_their_numbers(rt: HostRuntime) -> Result<(), Fail> {
    let fail = vec![in rt.alloc(); 1, 2, 4]?;
    assert!(rt; fails_to_open(&rt, rt.alloc(), fail));
    assert!(rt; OpenGate.at(0, 0));
    Ok(())
}

// The answers of an end of a stream to two writes, and how many answers `Full` the wire counts once it has the end back.
fn written_twice<W: Wire, R: Threads + Wait + Net>(
    rt: &R,
    wire: &mut W,
    piece: &[u8],
) -> Result<(Put, Put, u64), WireError>
    requires { 0 < length piece.now }
{
    let (mut a, _b) = wire.open(rt, 1, 2, 1)?;
    let first = a.write(piece);
    let second = a.write(piece);
    wire.give_back(rt, a);
    Ok((first, second, wire.counts().fulls))
}

#[test]
fn a_full_stream_takes_no_byte_more(rt: HostRuntime) {
    let alloc = rt.alloc();
    let mut wire = MemWire::new(alloc, Vec::new(alloc), Vec::new(alloc));
    let answers = written_twice(&rt, &mut wire, &[7; ROOM + 1]);
    assert!(rt; answers == Ok((Put::Took(ROOM), Put::Full, 1)));
    assert!(rt; !wire.can_fail());
}
