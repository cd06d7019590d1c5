use rds_frame::{FrameError, Splitter};
use rds_wire::{Header, Memory, check, encode};
use std::alloc::{AllocError, Global};

/// Something that is done again and again.
pub trait Work {
    fn run(&mut self) -> Result<(), FrameError>;
}

/// Headers as bytes, put one after another.
#[derive(Drop)]
pub struct Encode<'a> {
    headers: &'a [Header],
    out: Vec<u8>,
}

impl<'a> Encode<'a> {
    pub fn new(alloc: Global, headers: &'a [Header]) -> Encode<'a> {
        Encode {
            headers,
            out: Vec::new(alloc),
        }
    }

    pub fn bytes(&self) -> usize {
        self.out.len()
    }
}

impl Work for Encode<'_> {
    fn run(&mut self) -> Result<(), FrameError> {
        self.out.clear();
        for header in self.headers {
            self.out
                .extend_from_slice(&encode(header))
                .map_err(Memory::from)?;
        }
        Ok(())
    }
}

/// Headers checked, and those that pass counted.
#[derive(Drop)]
pub struct HeaderChecks<'a> {
    headers: &'a [Header],
    passed: u64,
}

impl<'a> HeaderChecks<'a> {
    pub fn new(headers: &'a [Header]) -> HeaderChecks<'a> {
        HeaderChecks { headers, passed: 0 }
    }

    pub fn passed(&self) -> u64 {
        self.passed
    }
}

impl Work for HeaderChecks<'_> {
    fn run(&mut self) -> Result<(), FrameError> {
        for header in self.headers {
            if check(header, 0, 0).is_ok() {
                self.passed = self.passed.wrapping_add(1);
            }
        }
        Ok(())
    }
}

/// A stream taken by a splitter in pieces of one length, and its frames handed out.
#[derive(Drop)]
pub struct Split<'a> {
    splitter: Splitter,
    bytes: &'a [u8],
    piece: usize,
    frames: u64,
}

impl<'a> Split<'a> {
    pub fn new(alloc: Global, bytes: &'a [u8], piece: usize) -> Result<Split<'a>, AllocError> {
        let splitter = Splitter::new(alloc).map_err(|_| AllocError)?;
        Ok(Split {
            splitter,
            bytes,
            piece,
            frames: 0,
        })
    }

    pub fn frames(&self) -> u64 {
        self.frames
    }
}

impl Work for Split<'_> {
    fn run(&mut self) -> Result<(), FrameError> {
        for piece in self.bytes.chunks(self.piece.max(1)) {
            let frames = hand_out(&mut self.splitter, piece)?;
            self.frames = self.frames.wrapping_add(frames);
        }
        Ok(())
    }
}

fn hand_out(splitter: &mut Splitter, piece: &[u8]) -> Result<u64, FrameError> {
    let mut left = piece;
    let mut frames = 0u64;
    for _ in 0..=piece.len() {
        let took = splitter.take(left, 0, 0)?;
        if splitter.done().is_none() {
            break;
        }
        frames = frames.wrapping_add(1);
        left = &left[took.used..];
    }
    Ok(frames)
}

/// The bytes of a stream put one after another in pieces of one length.
#[derive(Drop)]
pub struct Copied<'a> {
    bytes: &'a [u8],
    piece: usize,
    out: Vec<u8>,
}

impl<'a> Copied<'a> {
    pub fn new(alloc: Global, bytes: &'a [u8], piece: usize) -> Copied<'a> {
        let out = Vec::new(alloc);
        Copied { bytes, piece, out }
    }

    pub fn bytes(&self) -> usize {
        self.out.len()
    }
}

impl Work for Copied<'_> {
    fn run(&mut self) -> Result<(), FrameError> {
        self.out.clear();
        for piece in self.bytes.chunks(self.piece.max(1)) {
            self.out.extend_from_slice(piece).map_err(Memory::from)?;
        }
        Ok(())
    }
}
