//! Two lines' streams over a wire in memory.
ghost use Rattle.std.specs.Prelude.{◌≡◌, false, [], ◌∷◌, IfSome};
ghost use Rattle.rds_link.specs.Memory.{memory_means};
ghost use Rattle.rds_line_channel.specs.Meeting.{AtEach};
ghost use Rattle.rds_line_channel.specs.Streams.{IsUnused, numbers};

use rds_line_channel::*;
use rds_link::{End, Got, MemEnd, MemWire, Put, Wire};
use std::alloc::Global;
use std::net::Net;
use std::sync::Wait;
use std::test::*;
use std::thread::Threads;

// A line over the wire in memory.
type Line = Streams<MemEnd>;

// A line's streams, with the numbers 1 and 3.
fn two<E: End>(alloc: Global, first: E, second: E) -> Option<Streams<E>>
    requires first { IsUnused E.means first }
    requires second { IsUnused E.means second }
    ensures list { IfSome result (λ s. s.list ≡ (1, first) ∷ (3, second) ∷ []) }
    ensures closed { IfSome result (λ s. s.is_open ≡ false) }
{
    let mut streams = Vec::new(alloc);
    streams.push((1, first)).ok()?;
    streams.push((3, second)).ok()?;
    Some(Streams::new(streams))
}

// The streams of two lines over this wire.
fn joined<W: Wire, R: Threads + Wait + Net>(
    rt: &R,
    alloc: Global,
    wire: &mut W,
) -> Option<(Streams<W::End>, Streams<W::End>)>
    ensures numbers { IfSome result (λ both. numbers both.1.list ≡ numbers both.0.list) }
    ensures pairs { IfSome result (λ both. AtEach W.End.means.meets both.0.list both.1.list) }
    ensures closed { IfSome result (λ both. (both.0.is_open ≡ false) × (both.1.is_open ≡ false)) }
{
    let Ok((a, b)) = wire.open(rt, 1, 2, 1) else {
        return None;
    };
    let Ok((c, d)) = wire.open(rt, 1, 2, 3) else {
        return None;
    };
    let first = two(alloc, a, c)?;
    let second = two(alloc, b, d)?;
    Some((first, second))
}

// The streams of two lines.
fn prepared<R: Threads + Wait + Net>(rt: &R, alloc: Global) -> Option<(Line, Line)>
    ensures numbers { IfSome result (λ both. numbers both.1.list ≡ numbers both.0.list) }
    ensures pairs { IfSome result (λ both. AtEach memory_means.meets both.0.list both.1.list) }
    ensures closed { IfSome result (λ both. (both.0.is_open ≡ false) × (both.1.is_open ≡ false)) }
{
    let mut wire = MemWire::new(alloc, Vec::new(alloc), Vec::new(alloc));
    joined(rt, alloc, &mut wire)
}

// What two lines answer that open the next stream, move five bytes over it and end it.
fn carried(a: &mut Line, b: &mut Line, buf: &mut [u8; 8]) -> Option<[Got; 3]>
    requires first { a.old.is_open ≡ false }
    requires second { b.old.is_open ≡ false }
{
    a.open_next()?;
    b.open_next()?;
    a.send(b"hello");
    let came = b.receive(buf);
    let none = b.receive(buf);
    a.end_current();
    Some([came, none, b.receive(buf)])
}

fn carry<R: Threads + Wait + Net>(rt: &R, alloc: Global, buf: &mut [u8; 8]) -> Option<[Got; 3]> {
    let (mut a, mut b) = prepared(rt, alloc)?;
    carried(&mut a, &mut b, buf)
}

#[test]
fn bytes_go_over_the_open_stream(rt: HostRuntime) {
    let mut buf = [0; 8];
    let answers = carry(&rt, rt.alloc(), &mut buf);
    let expected = [Got::Bytes(5), Got::Nothing, Got::Over];
    assert!(rt; (answers, buf) == (Some(expected), *b"hello\0\0\0"));
}

// What a line's read answers once the other line has sent three bytes and both have met.
fn met<W: Wire>(a: &mut Streams<W::End>, b: &mut Streams<W::End>) -> Option<(Put, Got)>
    requires first { a.old.is_open ≡ false }
    requires second { b.old.is_open ≡ false }
    requires numbers { numbers b.old.list ≡ numbers a.old.list }
    requires pairs { AtEach W.End.means.meets a.old.list b.old.list }
{
    a.open_next()?;
    b.open_next()?;
    let sent = b.send(b"bye");
    meet_streams::<W>(a, b);
    Some((sent, a.receive(&mut [0; 8])))
}

fn meeting<R: Threads + Wait + Net>(rt: &R, alloc: Global) -> Option<(Put, Got)> {
    let (mut a, mut b) = prepared(rt, alloc)?;
    met::<MemWire>(&mut a, &mut b)
}

#[test]
fn two_lines_meet(rt: HostRuntime) {
    let answers = meeting(&rt, rt.alloc());
    assert!(rt; answers == Some((Put::Took(3), Got::Bytes(3))));
}

// The streams that a line has open, one after another, whether one is left, and how many there are.
fn opened(mut a: Line) -> Option<([Option<u32>; 3], bool, usize)>
    requires { a.is_open ≡ false }
{
    let none = a.current();
    a.open_next()?;
    let first = a.current();
    a.end_current();
    let second = a.open_next();
    Some(([none, first, second], a.has_next(), a.into_streams().len()))
}

fn opening<R: Threads + Wait + Net>(
    rt: &R,
    alloc: Global,
) -> Option<([Option<u32>; 3], bool, usize)> {
    let (a, _b) = prepared(rt, alloc)?;
    opened(a)
}

#[test]
fn streams_open_in_order(rt: HostRuntime) {
    let answers = opening(&rt, rt.alloc());
    let numbers = [None, Some(1), Some(3)];
    assert!(rt; answers == Some((numbers, false, 2)));
}
