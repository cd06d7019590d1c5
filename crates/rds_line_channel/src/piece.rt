//! Bytes that came from a stream and that its connection hasn't taken.
ghost use Rattle.std.specs.Prelude.{◌≡◌, ◌≢◌, ◌≤◌, ◌<◌, ℕ, [], length, drop, true, IfOk};
ghost use Rattle.rds_link.specs.declared.end.Got.TheVariants as got;
ghost use Rattle.rds_line_channel.specs.StreamChanges.{ChangesAt, Receives};
ghost use Rattle.rds_line_channel.specs.Meeting.{StayPaired};
ghost use Rattle.rds_line_channel.specs.Streams.{EndAt, HasSaidOver, newest_place, numbers, with_list};

use crate::Streams;
use rds_link::{End, Got};
use rds_wire::Memory;
use std::alloc::Global;
use std::marker::Model;

/// How many bytes one read of a stream takes at most.
pub const MAX_READ: usize = 65_536;

/// Bytes that came from a stream and that the connection hasn't taken. Contracts see them.
#[derive(Drop)]
pub(crate) struct Piece {
    buf: Vec<u8>,
    // The bytes stand from here on, up to `end`.
    start: usize,
    end: usize,
}

impl Model for Piece {
    ghost use Rattle.std.specs.Prelude.{◌≡◌, ◌≤◌, ◌<◌, ◌-◌, ℕ, List, length, take, drop};

    ghost Value = { List ℕ };

    ghost view = { λ p. take (p.end - p.start) (drop p.start p.buf.items) };

    ghost invariant = { λ p. (p.start ≤ p.end) × (p.end ≤ length p.buf.items) × (0 < length p.buf.items) };
}

impl Piece {
    /// No bytes.
    ///
    /// # Errors
    ///
    /// Where there is no memory for its bytes.
    pub fn new(alloc: Global) -> Result<Piece, Memory>
        ensures { IfOk result (λ p. p ≡ []) }
    {
        Ok(Piece {
            buf: room(alloc, MAX_READ)?,
            start: 0,
            end: 0,
        })
    }

    /// The bytes that are left.
    pub fn bytes(&self) -> &[u8]
        ensures { result.now ≡ self.now }
    {
        &self.buf[self.start..self.end]
    }

    /// The first `n` were taken.
    pub fn took(&mut self, n: usize)
        requires { n ≤ length self.old }
        ensures { self.new ≡ drop n self.old }
    {
        self.start += n;
    }

    /// Gives up what is left.
    pub fn wipe(&mut self)
        ensures { self.new ≡ [] }
    {
        self.start = self.end;
    }

    /// Reads from the open stream, where nothing is left.
    pub fn receive<E: End>(&mut self, streams: &mut Streams<E>) -> Got
        requires empty { self.old ≡ [] }
        requires open { streams.old.is_open ≡ true }
        ensures count { (n : ℕ) → result ≡ got.Bytes n → (1 ≤ n) × (length self.new ≡ n) }
        ensures none { ((n : ℕ) → result ≢ got.Bytes n) → self.new ≡ [] }
        ensures received { ChangesAt (Receives E.means result self.new) (newest_place streams.old) streams.old.list streams.new.list }
        ensures over { result ≡ got.Over → EndAt (HasSaidOver E.means) (newest_place streams.old) streams.new.list }
        ensures same { streams.new ≡ with_list streams.old streams.new.list }
        ensures numbers { numbers streams.new.list ≡ numbers streams.old.list }
        ensures stays { StayPaired E.means streams.old.list streams.new.list }
    {
        let got = streams.receive(&mut self.buf);
        self.start = 0;
        self.end = match got {
            Got::Bytes(n) => n,
            Got::Nothing | Got::Over => 0,
        };
        got
    }
}

// Room for so many bytes.
fn room(alloc: Global, size: usize) -> Result<Vec<u8>, Memory>
    requires { 0 < size }
    ensures { IfOk result (λ buf. 0 < length buf.items) }
{
    Ok(vec![in alloc; 0u8; size]?)
}
