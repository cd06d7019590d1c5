//! The three ways by which bytes go: a stream in memory, a plain ring, and a socket.
ghost use Rattle.std.specs.Prelude.{◌<◌, ◌≤◌, length};

use rds_link::{End, Got, Put};
use rtrb::{Consumer, Producer};
use std::io::{Read, Write};

/// Where bytes go in.
pub trait Sends: Drop {
    /// How many bytes from the front of the piece were taken.
    fn send(&mut self, piece: &[u8]) -> usize
        requires { 0 < length piece.now }
        ensures { result ≤ length piece.now };
}

/// Where bytes come out.
pub trait Gets: Drop {
    /// How many bytes came to the front of `buf`.
    fn get(&mut self, buf: &mut [u8]) -> usize
        requires { 0 < length buf.old }
        ensures { result ≤ length buf.old };
}

/// An end of a stream.
#[derive(Drop)]
pub struct StreamEnd<E: End>(pub E);

impl<E: End> Sends for StreamEnd<E> {
    fn send(&mut self, piece: &[u8]) -> usize {
        match self.0.write(piece) {
            Put::Took(count) => count,
            _ => 0,
        }
    }
}

impl<E: End> Gets for StreamEnd<E> {
    fn get(&mut self, buf: &mut [u8]) -> usize {
        match self.0.read(buf) {
            Got::Bytes(count) => count,
            _ => 0,
        }
    }
}

impl Sends for Producer<u8> {
    fn send(&mut self, piece: &[u8]) -> usize {
        let (taken, _) = self.push_partial_slice(piece);
        taken.len()
    }
}

impl Gets for Consumer<u8> {
    fn get(&mut self, buf: &mut [u8]) -> usize {
        self.pop_partial_slice(buf)
    }
}

/// An end of a socket.
#[derive(Drop)]
pub struct SocketEnd<S: Read + Write + Drop>(pub S);

impl<S: Read + Write + Drop> Sends for SocketEnd<S> {
    fn send(&mut self, piece: &[u8]) -> usize {
        self.0.write(piece).unwrap_or(0)
    }
}

impl<S: Read + Write + Drop> Gets for SocketEnd<S> {
    fn get(&mut self, buf: &mut [u8]) -> usize {
        self.0.read(buf).unwrap_or(0)
    }
}
