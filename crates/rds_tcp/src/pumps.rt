//! What the two threads of an end do: the reader moves bytes from the TCP stream into a ring, and the writer from the other ring to it.
ghost use Rattle.std.specs.Prelude.{◌≡◌, ◌≤◌, ◌++◌, length, take, IfOk, OnOk, OnErr, IsSome, IsNone, IsTrue};
ghost use Rattle.rtrb.specs.Ring.{sent, received};
ghost use Rattle.std.specs.Io.KnownBytes.{Appends, Consumes, Keeps};
ghost use Rattle.rds_tcp.specs.Pumps.{GrowsByFront, AppendsFront, PutsAll, PutsFront, WritesAll, WritesFront};

use crate::broken::Break;
use crate::pipe::Shared;
use rtrb::{Consumer, Producer};
use std::io;
use std::io::{Read, Write};
use std::sync::Wait;

/// How many bytes the reader or the writer of an end moves at once at most.
const PIECE: usize = 16_384;

/// How many times the last bytes of a closing end wait for a peer that doesn't read, each time for as long as a write may wait.
const PATIENCE: u32 = 20;

/// What the reader thread of an end does: it reads the TCP stream until that has ended or failed, or the end stops.
pub(crate) fn run_reader<R: Wait>(rt: &R, shared: &Shared, mut ring: Producer<u8>) {
    if let Some(broken) = read_on(rt, shared, &mut shared.stream(), &mut ring) {
        shared.note_broken(broken);
    }
    shared.note_end(&shared.reader);
}

// Puts what the reader hands out into the ring, until the reader has ended or failed, which the answer shows, or the end stops.
fn read_on<R: Wait, S: Read>(
    rt: &R,
    shared: &Shared,
    reader: &mut S,
    ring: &mut Producer<u8>,
) -> Option<Break>
    ensures all { IsSome result → PutsAll (S.remaining reader.old) (S.remaining reader.new) (sent ring.old) (sent ring.new) }
    ensures front { PutsFront (S.remaining reader.old) (S.remaining reader.new) (sent ring.old) (sent ring.new) }
{
    let mut piece = [0u8; PIECE];
    for _ in rt.forever() {
        match next_piece(reader, &mut piece) {
            Ok(count) => {
                if !put_all(rt, shared, ring, &piece[..count]) {
                    return None;
                }
            }
            Err(broken) => return Some(broken),
        }
    }
    unreachable!()
}

// How many bytes came, which are none where a signal came first; or what shows that the reader has ended or failed.
fn next_piece<S: Read>(reader: &mut S, piece: &mut [u8]) -> Result<usize, Break>
    ensures count { IfOk result (λ count. count ≤ length piece.new) }
    ensures came { IfOk result (λ count. Consumes (S.remaining reader.old) (S.remaining reader.new) (take count piece.new)) }
    ensures over { OnErr result (Keeps (S.remaining reader.old) (S.remaining reader.new)) }
{
    match reader.read(piece) {
        Ok(count) if count > 0 => Ok(count),
        Err(error) if error.kind() == io::ErrorKind::Interrupted => Ok(0),
        call => Err(Break::by(&call)),
    }
}

// Puts the whole piece into the ring, and sleeps where there is no room. Answers whether all of it was put: where the end stops, it isn't.
fn put_all<R: Wait>(rt: &R, shared: &Shared, ring: &mut Producer<u8>, piece: &[u8]) -> bool
    ensures all { IsTrue result → sent ring.new ≡ sent ring.old ++ piece.now }
    ensures front { GrowsByFront (sent ring.old) (sent ring.new) piece.now }
{
    let mut rest = piece;
    for _ in rt.forever() {
        if rest.is_empty() {
            return true;
        }
        if shared.has_stopped() {
            return false;
        }
        let (_, left) = ring.push_partial_slice(rest);
        if left.len() < rest.len() {
            shared.ring_line();
        } else {
            shared.reader.sleep(rt);
        }
        rest = left;
    }
    unreachable!()
}

/// What the writer thread of an end does: it writes to the TCP stream until that fails, or the end stops or has closed.
pub(crate) fn run_writer<R: Wait>(rt: &R, shared: &Shared, mut ring: Consumer<u8>) {
    if let Some(broken) = write_on(rt, shared, &mut shared.stream(), &mut ring) {
        shared.note_broken(broken);
    }
    shared.note_end(&shared.writer);
}

// Writes what stands in the ring, until the writer fails, which the answer shows, or the end stops, or closes and nothing waits any more.
fn write_on<R: Wait, W: Write>(
    rt: &R,
    shared: &Shared,
    writer: &mut W,
    ring: &mut Consumer<u8>,
) -> Option<Break>
    ensures all { IsNone result → WritesAll (W.contents writer.old) (W.contents writer.new) (received ring.old) (received ring.new) }
    ensures front { WritesFront (W.contents writer.old) (W.contents writer.new) (received ring.old) (received ring.new) }
{
    let mut piece = [0u8; PIECE];
    for _ in rt.forever() {
        let is_last = shared.is_closing() || shared.has_stopped();
        let count = ring.pop_partial_slice(&mut piece);
        if count > 0 {
            shared.note_room();
            if let Err(broken) = write_all(rt, shared, writer, &piece[..count]) {
                return Some(broken);
            }
        } else if is_last {
            return None;
        } else {
            shared.writer.sleep(rt);
        }
    }
    unreachable!()
}

// Writes the whole piece, or shows that a write failed: a closing end waits for its peer only so often.
fn write_all<R: Wait, W: Write>(
    rt: &R,
    shared: &Shared,
    writer: &mut W,
    piece: &[u8],
) -> Result<(), Break>
    ensures all { OnOk result (Appends (W.contents writer.old) (W.contents writer.new) piece.now) }
    ensures front { AppendsFront (W.contents writer.old) (W.contents writer.new) piece.now }
{
    let mut rest = piece;
    let mut patience = PATIENCE;
    for _ in rt.forever() {
        if rest.is_empty() {
            return Ok(());
        }
        match writer.write(rest) {
            Ok(count) if count > 0 => rest = &rest[count..],
            Err(error) if may_go_on(&error) && patience > 0 => {
                patience = patience_after(shared, patience);
            }
            call => return Err(Break::by(&call)),
        }
    }
    unreachable!()
}

// What is left of the patience after a write that moved nothing: only a closing end loses some.
fn patience_after(shared: &Shared, patience: u32) -> u32 {
    if shared.is_closing() {
        patience.saturating_sub(1)
    } else {
        patience
    }
}

// The write waited too long, or a signal came.
fn may_go_on(error: &io::Error) -> bool {
    matches!(
        error.kind(),
        io::ErrorKind::WouldBlock | io::ErrorKind::TimedOut | io::ErrorKind::Interrupted
    )
}
