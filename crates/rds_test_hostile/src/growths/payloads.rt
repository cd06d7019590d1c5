//! Payloads, and a reader of frames.
use super::tried::Tried;
use rds_frame::Splitter;
use rds_wire::{Header, Payload, encode, sealed};
use std::alloc::Global;

/// The header of a datagram with so many bytes.
pub fn header(len: u32) -> Header {
    sealed(Header {
        sequence: 1,
        ack: 0,
        len,
        sport: 4000,
        dport: 4001,
        flags: 0,
        credit: 0,
        padding: [0; 4],
        csum: 0,
        ext: [0; 16],
    })
}

/// The bytes of such a datagram.
pub fn datagram(alloc: Global, len: u32) -> Option<Vec<u8>> {
    let mut bytes = encode(&header(len)).to_vec(alloc).ok()?;
    for _ in 0..len {
        bytes.push(7).ok()?;
    }
    Some(bytes)
}

pub fn payload(alloc: Global) -> Option<Tried> {
    let mut again = false;
    let payload = match Payload::copy_of(alloc, b"hello") {
        Ok(payload) => payload,
        Err(_) => {
            again = true;
            Payload::copy_of(alloc, b"hello").ok()?
        }
    };
    Some(Tried::of(again, payload.as_slice().len()))
}

pub fn share(alloc: Global) -> Option<Tried> {
    let payload = Payload::copy_of(alloc, b"hello").ok()?;
    let mut again = false;
    let other = match payload.share() {
        Ok(other) => other,
        Err(_) => {
            again = true;
            payload.share().ok()?
        }
    };
    Some(Tried::of(again, other.as_slice().len()))
}

pub fn splitter(alloc: Global) -> Option<Tried> {
    let mut again = false;
    let splitter = match Splitter::new(alloc) {
        Ok(splitter) => splitter,
        Err(_) => {
            again = true;
            Splitter::new(alloc).ok()?
        }
    };
    let refused = if splitter.refused().is_some() { 1 } else { 0 };
    Some(Tried::of(again, refused))
}

pub fn take(alloc: Global) -> Option<Tried> {
    let bytes = datagram(alloc, 10_000)?;
    let mut splitter = Splitter::new(alloc).ok()?;
    taken(&mut splitter, bytes.as_slice())
}

// Takes all the bytes, in two pieces.
fn taken(splitter: &mut Splitter, bytes: &[u8]) -> Option<Tried> {
    let (front, rest) = (bytes.get(..100)?, bytes.get(100..)?);
    let first = take_piece(splitter, front)?;
    let second = take_piece(splitter, rest)?;
    let frame = splitter.done()?;
    let again = first.again || second.again;
    Some(Tried::of(again, frame.payload.as_slice().len()))
}

fn take_piece(splitter: &mut Splitter, piece: &[u8]) -> Option<Tried> {
    let mut again = false;
    let took = match splitter.take(piece, 0, 0) {
        Ok(took) => took,
        Err(_) => {
            again = true;
            splitter.take(piece, 0, 0).ok()?
        }
    };
    Some(Tried::of(again, took.used))
}
