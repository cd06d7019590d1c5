//! The streams of a line, one of which is open at a time.
ghost use Rattle.std.specs.Prelude.{◌≡◌, ◌<◌, ◌≤◌, ◌+◌, ◌↔◌, ℕ, All, true, false, length, take, drop, slice_get, IsTrue, IfSome, IfNone, IsSome};
ghost use Rattle.rds_link.specs.Answers.{bytes_got, bytes_put};
ghost use Rattle.rds_link.specs.declared.end.Got.TheVariants as got;
ghost use Rattle.rds_link.specs.declared.end.Put.TheVariants as put;
ghost use Rattle.rds_line_channel.specs.StreamChanges.{ChangesAt, Receives, Sends, IsShutDown};
ghost use Rattle.rds_line_channel.specs.Meeting.{StayPaired};
ghost use Rattle.rds_line_channel.specs.Streams.{AreKept, AreNumbered, IsUnused, HasSaidOver, EndAt, numbers, newest_place, open_number, opened_numbers, unopened, with_list};

use crate::places::{read_at, shut_at, write_at};
use rds_link::{End, Got, Put};
use std::marker::Model;
use std::sync::Wait;
use std::thread;

/// All streams that a line was given: the number of each and the line's end of it. The line opens them one after another,
/// each at most once, and at most one is open at a time. An end that isn't open any more has shut, and one that wasn't
/// opened has moved nothing. Contracts see the list of streams, how many were opened, and whether the newest of these is
/// open.
#[derive(Drop)]
pub struct Streams<E: End> {
    pub(crate) streams: Vec<(u32, E)>,
    // How many of them were opened, from the front.
    pub(crate) opened: usize,
    // Whether the one that was opened last is open.
    pub(crate) is_open: bool,
}

impl<E: End> Model for Streams<E> {
    ghost use Rattle.rds_line_channel.specs.Streams.{StreamsView, AreKept};

    ghost Value = { StreamsView E };

    ghost view = { λ s. record { list = s.streams.items; opened = s.opened; is_open = s.is_open } };

    ghost invariant = { λ s. AreKept E.means (record { list = s.streams.items; opened = s.opened; is_open = s.is_open }) };
}

impl<E: End> Streams<E> {
    /// Streams in the order in which they are to be opened, none of which was. Their numbers are above 0 and ascend, and their
    /// ends are unused.
    pub fn new(streams: Vec<(u32, E)>) -> Streams<E>
        requires numbered { AreNumbered streams.items }
        requires unused { All (λ stream. IsUnused E.means stream.1) streams.items }
        ensures { result ≡ unopened streams.items }
    {
        Streams {
            streams,
            opened: 0,
            is_open: false,
        }
    }

    /// Whether a stream is open.
    pub fn is_open(&self) -> bool
        ensures { result ≡ self.now.is_open }
    {
        self.is_open
    }

    /// The number of the open stream, if one is.
    pub fn current(&self) -> Option<u32>
        ensures number { result ≡ open_number self.now }
        ensures some { IsSome result ↔ (self.now.is_open ≡ true) }
    {
        if !self.is_open {
            return None;
        }
        Some(self.streams[self.opened - 1].0)
    }

    /// Whether there is a stream that wasn't opened.
    pub fn has_next(&self) -> bool
        ensures { IsTrue result ↔ (self.now.opened < length self.now.list) }
    {
        self.opened < self.streams.len()
    }

    /// Opens the next stream, where none is open, and answers its number. `None` where all were opened.
    pub fn open_next(&mut self) -> Option<u32>
        requires { self.old.is_open ≡ false }
        ensures number { result ≡ slice_get (numbers self.old.list) self.old.opened }
        ensures above { IfSome result (λ number. (0 < number) × All (λ earlier. earlier < number) (opened_numbers self.old)) }
        ensures opened { IfSome result (λ _. self.new ≡ record self.old { opened = self.old.opened + 1; is_open = true }) }
        ensures none { IfNone result (self.new ≡ self.old) }
        ensures all { IfNone result (self.old.opened ≡ length self.old.list) }
        ensures same { self.new.list ≡ self.old.list }
    {
        let number = self.streams.get(self.opened)?.0;
        self.opened += 1;
        self.is_open = true;
        Some(number)
    }

    /// Reads some bytes of the open stream to the front of `buf`, which isn't empty. `Nothing` where none is there now, `Over`
    /// where the stream is over, which the line then ends. The ends of all other streams stay as they are.
    pub fn receive(&mut self, buf: &mut [u8]) -> Got
        requires open { self.old.is_open ≡ true }
        requires buf { 0 < length buf.old }
        ensures count { (n : ℕ) → result ≡ got.Bytes n → (1 ≤ n) × (n ≤ length buf.old) }
        ensures rest { drop (bytes_got result) buf.new ≡ drop (bytes_got result) buf.old }
        ensures received { ChangesAt (Receives E.means result (take (bytes_got result) buf.new)) (newest_place self.old) self.old.list self.new.list }
        ensures over { result ≡ got.Over → EndAt (HasSaidOver E.means) (newest_place self.old) self.new.list }
        ensures same { self.new ≡ with_list self.old self.new.list }
        ensures numbers { numbers self.new.list ≡ numbers self.old.list }
        ensures stays { StayPaired E.means self.old.list self.new.list }
    {
        read_at(&mut self.streams, self.opened - 1, buf)
    }

    /// Writes some bytes from the front of `piece`, which isn't empty, to the open stream. `Full` where there is no room now,
    /// `Over` where the stream is over, which the line then ends. The ends of all other streams stay as they are.
    pub fn send(&mut self, piece: &[u8]) -> Put
        requires open { self.old.is_open ≡ true }
        requires piece { 0 < length piece.now }
        ensures count { (n : ℕ) → result ≡ put.Took n → (1 ≤ n) × (n ≤ length piece.now) }
        ensures sent { ChangesAt (Sends E.means result (take (bytes_put result) piece.now)) (newest_place self.old) self.old.list self.new.list }
        ensures over { result ≡ put.Over → EndAt (HasSaidOver E.means) (newest_place self.old) self.new.list }
        ensures same { self.new ≡ with_list self.old self.new.list }
        ensures numbers { numbers self.new.list ≡ numbers self.old.list }
        ensures stays { StayPaired E.means self.old.list self.new.list }
    {
        write_at(&mut self.streams, self.opened - 1, piece)
    }

    /// Shuts the line's end of the open stream, which isn't open any more.
    pub fn end_current(&mut self)
        requires { self.old.is_open ≡ true }
        ensures shut { ChangesAt (IsShutDown E.means) (newest_place self.old) self.old.list self.new.list }
        ensures ended { self.new ≡ record self.old { list = self.new.list; is_open = false } }
        ensures numbers { numbers self.new.list ≡ numbers self.old.list }
        ensures stays { StayPaired E.means self.old.list self.new.list }
    {
        shut_at(&mut self.streams, self.opened - 1);
        self.is_open = false;
    }

    /// Waits a short while, where nothing can be read from the open stream or written to it. Where none is open, other threads
    /// get their turn.
    pub fn rest<R: Wait>(&self, rt: &R) {
        if !self.is_open {
            return thread::yield_now();
        }
        self.streams[self.opened - 1].1.rest(rt);
    }

    /// Every stream that was given, in the same order.
    pub fn into_streams(self) -> Vec<(u32, E)>
        ensures { result.items ≡ self.list }
    {
        let Streams {
            streams,
            opened: _,
            is_open: _,
        } = self;
        streams
    }

    /// Changes nothing: what the streams of every line keep.
    pub fn known(&self)
        ensures { AreKept E.means self.now }
    {
        let _opened = self.opened;
    }
}
