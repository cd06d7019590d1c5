//! An end of a stream over TCP.
ghost use Rattle.std.specs.Prelude.{◌≡◌, ◌≢◌, ◌++◌, ◌+◌, ◌≤◌, ◌<◌, ℕ, [], IsSome, Some, length, take, drop};
ghost use mathlib.Core.List.{IsPrefix};
ghost use Rattle.rtrb.specs.Ring.{sent, known_free};
ghost use Rattle.rds_link.specs.Answers.{bytes_got, bytes_put};
ghost use Rattle.rds_link.specs.declared.end.Got.TheVariants as got;
ghost use Rattle.rds_link.specs.declared.end.Put.TheVariants as put;
ghost use Rattle.rds_link.specs.Ends.{Remains, SendsNothing, GetsNothing, RisesBy};
ghost use Rattle.rds_link.specs.Standing.{standing as standing_of, IsOver, GoesOn};

use crate::broken::Break;
use crate::pipe::Pipe;
use crate::rings::Near;
use crate::standing::TcpStanding;
use rds_link::{End, Got, Put, Standing};
use rtrb::{Consumer, Producer};
use std::sync::Wait;

/// An end of a stream over TCP. Two threads move its bytes between the TCP stream and its two rings; they end at the latest once it has
/// shut, or is dropped. The ring that it reads from is taken out for each read, so that the loop which copies bytes keeps the ring's
/// address at hand, and copies many at once.
#[derive(Drop)]
pub struct TcpEnd {
    pub(crate) out: Producer<u8>,
    pub(crate) inp: Option<Consumer<u8>>,
    pub(crate) standing: TcpStanding,
    pub(crate) pipe: Pipe,
    pub(crate) nothings: u64,
    pub(crate) fulls: u64,
    ghost there: { IsSome inp },
}

impl TcpEnd {
    ghost use Rattle.rds_tcp.specs.Tcp.{taken, waiting};

    /// An end of these parts that has counted nothing.
    pub(crate) fn new(pipe: Pipe, near: Near, standing: Standing) -> TcpEnd
        ensures out { result.out ≡ near.out }
        ensures inp { result.inp ≡ Some near.inp }
        ensures standing { result.standing ≡ standing }
        ensures pipe { result.pipe ≡ pipe }
        ensures counts { (result.nothings ≡ 0) × (result.fulls ≡ 0) }
    {
        let Near { out, inp } = near;
        TcpEnd {
            out,
            inp: Some(inp),
            standing: TcpStanding::new(standing),
            pipe,
            nothings: 0,
            fulls: 0,
        }
    }

    // Takes bytes that came from the ring, and tells the reader that there is room. Where they don't fill the buffer, the ring had no more.
    fn pull(&mut self, buf: &mut [u8]) -> usize
        ensures same { self.new ≡ record self.old { inp = self.new.inp; there = self.new.there } }
        ensures count { result ≤ length buf.old }
        ensures got { taken self.new ≡ taken self.old ++ take result buf.new }
        ensures rest { drop result buf.new ≡ drop result buf.old }
        ensures known { IsPrefix (waiting self.old) (take result buf.new ++ waiting self.new) }
        ensures most { result < length buf.old → waiting self.new ≡ [] }
    {
        let Some(mut ring) = self.inp.take() else {
            unreachable!()
        };
        let count = ring.pop_partial_slice(buf);
        self.inp = Some(ring);
        if count > 0 {
            self.pipe.ring_reader();
        }
        count
    }

    // Puts bytes into the ring, and tells the writer. Where it doesn't take the whole piece, the ring had no room left.
    fn push(&mut self, piece: &[u8]) -> usize
        ensures same { self.new ≡ record self.old { out = self.new.out } }
        ensures count { result ≤ length piece.now }
        ensures sent { sent self.new.out ≡ sent self.old.out ++ take result piece.now }
        ensures known { known_free self.old.out ≤ known_free self.new.out + result }
        ensures most { result < length piece.now → known_free self.new.out ≡ 0 }
    {
        let (taken, _) = self.out.push_partial_slice(piece);
        if !taken.is_empty() {
            self.pipe.ring_writer();
        }
        taken.len()
    }

    // The TCP stream has broken: counts the first fault, which shuts the end, unless a look finds now that the stream is over.
    fn fail(&mut self, broken: &Break)
        ensures same { self.new ≡ record self.old { standing = self.new.standing } }
        ensures stream { self.new.standing ≡ standing_of self.old.standing self.new.standing.stand }
        ensures over { IsOver self.old.standing.stand self.new.standing.stand }
    {
        if self.standing.fail(broken) {
            self.pipe.stop(&self.standing);
        }
    }
}

impl End for TcpEnd {
    ghost use Rattle.rds_tcp.specs.Tcp.{tcp_means};

    ghost means = { tcp_means };

    // Whether the TCP stream broke is asked before the ring: what came until then is read first.
    fn read(&mut self, buf: &mut [u8]) -> Got
        requires { 0 < length buf.old }
        ensures count { (n : ℕ) → result ≡ got.Bytes n → (1 ≤ n) × (n ≤ length buf.old) }
        ensures rest { drop (bytes_got result) buf.new ≡ drop (bytes_got result) buf.old }
        ensures got { tcp_means.got self.new ≡ tcp_means.got self.old ++ take (bytes_got result) buf.new }
        ensures known { IsPrefix (tcp_means.known self.old) (take (bytes_got result) buf.new ++ tcp_means.known self.new) }
        ensures sent { SendsNothing tcp_means self.old self.new }
        ensures nothing { result ≡ got.Nothing → tcp_means.known self.new ≡ [] }
        ensures goes { result ≢ got.Over → GoesOn (tcp_means.stand self.old) (tcp_means.stand self.new) }
        ensures over { result ≡ got.Over → IsOver (tcp_means.stand self.old) (tcp_means.stand self.new) }
        ensures nothings { result ≡ got.Nothing → RisesBy 1 (tcp_means.nothings self.old) (tcp_means.nothings self.new) }
        ensures others { result ≢ got.Nothing → tcp_means.nothings self.new ≡ tcp_means.nothings self.old }
        ensures fulls { tcp_means.fulls self.new ≡ tcp_means.fulls self.old }
        ensures meets { Remains tcp_means self.old self.new }
    {
        if self.standing.is_over() {
            return Got::Over;
        }
        let broken = self.pipe.broken();
        let came = self.pull(buf);
        if came > 0 {
            return Got::Bytes(came);
        }
        let Some(broken) = broken else {
            self.nothings = self.nothings.saturating_add(1);
            return Got::Nothing;
        };
        self.fail(&broken);
        Got::Over
    }

    fn write(&mut self, piece: &[u8]) -> Put
        requires { 0 < length piece.now }
        ensures count { (n : ℕ) → result ≡ put.Took n → (1 ≤ n) × (n ≤ length piece.now) }
        ensures sent { tcp_means.sent self.new ≡ tcp_means.sent self.old ++ take (bytes_put result) piece.now }
        ensures room { tcp_means.room self.old ≤ tcp_means.room self.new + bytes_put result }
        ensures got { GetsNothing tcp_means self.old self.new }
        ensures full { result ≡ put.Full → tcp_means.room self.new ≡ 0 }
        ensures goes { result ≢ put.Over → GoesOn (tcp_means.stand self.old) (tcp_means.stand self.new) }
        ensures over { result ≡ put.Over → IsOver (tcp_means.stand self.old) (tcp_means.stand self.new) }
        ensures fulls { result ≡ put.Full → RisesBy 1 (tcp_means.fulls self.old) (tcp_means.fulls self.new) }
        ensures others { result ≢ put.Full → tcp_means.fulls self.new ≡ tcp_means.fulls self.old }
        ensures nothings { tcp_means.nothings self.new ≡ tcp_means.nothings self.old }
        ensures meets { Remains tcp_means self.old self.new }
    {
        if self.standing.is_over() {
            return Put::Over;
        }
        let broken = self.pipe.broken();
        let taken = self.push(piece);
        if taken > 0 {
            return Put::Took(taken);
        }
        let Some(broken) = broken else {
            self.pipe.note_full();
            self.fulls = self.fulls.saturating_add(1);
            return Put::Full;
        };
        self.fail(&broken);
        Put::Over
    }

    fn shut(&mut self) {
        self.standing.shut();
        self.pipe.stop(&self.standing);
    }

    fn finish<R: Wait>(mut self, rt: &R) {
        self.pipe.drain(rt);
        self.shut();
        self.pipe.await_threads(rt);
    }

    fn rest<R: Wait>(&self, rt: &R) {
        self.pipe.rest(rt);
    }
}
