//! Streams of frames: lawful ones, and ones with something changed.
use super::chance::Chance;
use rds_wire::{
    ACK_REQUIRED, CONG_BITMAP, Ext, Header, MAP_LENGTH, RETRANSMITTED, encode, put_ext, sealed,
};
use std::alloc::{AllocError, Global};

/// How many datagrams a peer of these streams has sent.
pub const SENT: u64 = 3;

/// The port of the only socket.
pub const HELD: u16 = 4001;

/// How many frames a stream has at most.
const MOST: u64 = 12;

/// The longest payload that is written whole.
const LONGEST: u32 = 10_000;

/// A stream of bytes, and of how many frames it was made.
#[derive(Drop)]
pub struct Stream {
    pub bytes: Vec<u8>,
    pub frames: u64,
}

impl Stream {
    /// A stream of so many frames at most. One of four is cut short.
    pub fn new(alloc: Global, chance: &mut Chance, most: u64) -> Result<Stream, AllocError> {
        let mut bytes = Vec::new(alloc);
        let frames = chance.below(MOST).wrapping_add(1).min(most);
        for number in 1..=frames {
            add_frame(chance, number, &mut bytes)?;
        }
        if chance.is_one_of(4) {
            let left = chance.below(bytes.len() as u64);
            bytes.truncate(usize::try_from(left).unwrap_or(0));
        }
        Ok(Stream { bytes, frames })
    }
}

// Adds a frame, the header of which may be damaged, and its payload or a part of it.
fn add_frame(chance: &mut Chance, number: u64, bytes: &mut Vec<u8>) -> Result<(), AllocError> {
    let header = header(chance, number);
    let head = damaged(chance, encode(&header));
    bytes.extend_from_slice(&head)?;
    let length = if header.len <= LONGEST {
        header.len
    } else {
        60
    };
    add_payload(chance.byte(), length, bytes)
}

// Bytes that count on from the first one.
fn add_payload(first: u8, length: u32, bytes: &mut Vec<u8>) -> Result<(), AllocError> {
    let mut byte = first;
    for _ in 0..length {
        bytes.push(byte)?;
        byte = byte.wrapping_add(1);
    }
    Ok(())
}

// A header that a host could write, or one with something changed, most of them with their checksum.
fn header(chance: &mut Chance, number: u64) -> Header {
    let lawful = lawful(chance, number);
    if chance.is_one_of(4) {
        return changed(chance, lawful);
    }
    if chance.is_one_of(4) {
        return lawful;
    }
    sealed(lawful)
}

fn lawful(chance: &mut Chance, number: u64) -> Header {
    let plain = Header {
        sequence: 0,
        ack: chance.below(SENT + 1),
        len: 0,
        sport: 4000,
        dport: HELD,
        flags: 0,
        credit: 0,
        padding: [0; 4],
        csum: 0,
        ext: generation(chance),
    };
    match chance.below(10) {
        0 => Header { dport: 0, ..plain },
        1 => Header {
            flags: CONG_BITMAP,
            len: MAP_LENGTH,
            ..plain
        },
        _ => datagram(chance, number, plain),
    }
}

// A datagram, some of them asking, pulled before, to no socket or to port 0.
fn datagram(chance: &mut Chance, number: u64, plain: Header) -> Header {
    let flags = match chance.below(4) {
        0 => ACK_REQUIRED,
        1 => RETRANSMITTED,
        _ => 0,
    };
    let dport = match chance.below(6) {
        0 => 0,
        1 => 5000,
        _ => HELD,
    };
    let back = if flags == RETRANSMITTED { 3 } else { 1 };
    Header {
        sequence: number.saturating_sub(chance.below(back)).max(1),
        len: length(chance),
        sport: if chance.is_one_of(8) { 0 } else { 4000 },
        dport,
        flags,
        ..plain
    }
}

fn length(chance: &mut Chance) -> u32 {
    match chance.below(4) {
        0 => 0,
        1 => 5,
        2 => u32::from(chance.byte()),
        _ => u32::from(chance.short() % 1_500),
    }
}

// No extensions, or a low generation.
fn generation(chance: &mut Chance) -> [u8; 16] {
    match chance.below(3) {
        0 => [0; 16],
        1 => put_ext(&Ext::Generation(1)),
        _ => put_ext(&Ext::Generation(2)),
    }
}

// The header with one thing changed, and half of the time with the checksum of that.
fn changed(chance: &mut Chance, header: Header) -> Header {
    let changed = match chance.below(8) {
        0 => Header {
            len: length_out_of_range(chance),
            ..header
        },
        1 => Header {
            sequence: number_out_of_range(chance),
            ..header
        },
        2 => Header {
            ack: SENT.wrapping_add(chance.below(3)),
            ..header
        },
        3 => Header {
            ext: extensions(chance),
            ..header
        },
        4 => Header {
            flags: chance.byte(),
            ..header
        },
        5 => Header {
            sport: chance.short(),
            dport: chance.short(),
            ..header
        },
        6 => Header {
            credit: chance.byte(),
            padding: [255; 4],
            ..header
        },
        _ => {
            return Header {
                csum: chance.short(),
                ..header
            };
        }
    };
    if chance.is_one_of(2) {
        return changed;
    }
    sealed(changed)
}

fn length_out_of_range(chance: &mut Chance) -> u32 {
    match chance.below(4) {
        0 => 1_048_576,
        1 => 1_048_577,
        2 => MAP_LENGTH,
        _ => chance.word(),
    }
}

fn number_out_of_range(chance: &mut Chance) -> u64 {
    match chance.below(4) {
        0 => 0,
        1 => 1 << 63,
        2 => (1 << 63) - 1,
        _ => chance.number(),
    }
}

// Extensions of each kind, of kinds that there aren't, and with data that pass the area.
fn extensions(chance: &mut Chance) -> [u8; 16] {
    let mut area = [0; 16];
    for byte in &mut area {
        *byte = if chance.is_one_of(3) {
            chance.byte()
        } else {
            (chance.below(8) % 8) as u8
        };
    }
    area
}

// The bytes with one of them changed, or with none but those of the checksum kept, now and then.
fn damaged(chance: &mut Chance, head: [u8; 48]) -> [u8; 48] {
    let mut bytes = head;
    match chance.below(24) {
        0 => {
            for byte in &mut bytes {
                *byte = chance.byte();
            }
        }
        1 => {
            for byte in &mut bytes {
                if chance.is_one_of(24) {
                    *byte = byte.wrapping_add(1);
                }
            }
        }
        _ => {}
    }
    bytes
}
