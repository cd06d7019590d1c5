//! Encode, check and split of frames beside a plain copy of the same bytes.
mod rate;
mod stream;
mod work;

use anyhow::anyhow;
use rate::{Rate, best};
use rds_frame::FrameError;
use std::time::CpuClock;
use stream::FrameStream;
use work::{Copied, Encode, HeaderChecks, Split, Work};

/// How many bytes of payload the frames of a stream have.
const PAYLOADS: [u32; 4] = [0, 64, 1024, 65_536];

/// How many bytes the pieces have.
const PIECES: [usize; 4] = [1, 48, 1500, 65_536];

/// The bytes of payload and of a piece where nothing is measured.
const SHOWN: (u32, usize) = (1024, 1500);

/// Writes what one round does with the frames of a stream, in pieces of one length.
pub fn show(rt: &(impl Print + AllocGlobal)) -> anyhow::Result<()> {
    let (payload, piece) = SHOWN;
    let stream = FrameStream::new(rt.alloc(), payload)?;
    let mut encode = Encode::new(rt.alloc(), &stream.headers);
    run(&mut encode)?;
    let mut check = HeaderChecks::new(&stream.headers);
    run(&mut check)?;
    let mut split = Split::new(rt.alloc(), stream.bytes.as_slice(), piece)?;
    run(&mut split)?;
    let mut copy = Copied::new(rt.alloc(), stream.bytes.as_slice(), piece);
    run(&mut copy)?;
    let encoded = encode.bytes();
    let passed = check.passed();
    let frames = split.frames();
    let copied = copy.bytes();
    println!(rt;
        "frame: {encoded} bytes of headers encoded, {passed} passed, {frames} frames split, {copied} bytes copied"
    )?;
    Ok(())
}

fn run(work: &mut impl Work) -> anyhow::Result<()> {
    work.run().map_err(refused)
}

// Why a round ended early.
fn refused(error: FrameError) -> anyhow::Error {
    anyhow!("a frame is refused: {error:?}")
}

/// Measures so many rounds of each.
pub fn measure(rt: &(impl CpuClock + Print + AllocGlobal), rounds: u32) -> anyhow::Result<()> {
    headers(rt, rounds)?;
    for payload in PAYLOADS {
        pieces(rt, payload, rounds)?;
    }
    Ok(())
}

// Encode and check, by the header.
fn headers(rt: &(impl CpuClock + Print + AllocGlobal), rounds: u32) -> anyhow::Result<()> {
    let stream = FrameStream::new(rt.alloc(), 0)?;
    let frames = stream.frames();
    let mut encode = Encode::new(rt.alloc(), &stream.headers);
    let encoded = Rate::new(best(rt, rounds, &mut encode)?, frames);
    let mut check = HeaderChecks::new(&stream.headers);
    let checked = Rate::new(best(rt, rounds, &mut check)?, frames);
    let passed = check.passed();
    rt.println(format_args!(
        "encode {encoded} ns a frame, check {checked} ns a frame ({passed} passed)"
    ))?;
    Ok(())
}

// Split and a plain copy, by the piece.
fn pieces(
    rt: &(impl CpuClock + Print + AllocGlobal),
    payload: u32,
    rounds: u32,
) -> anyhow::Result<()> {
    let stream = FrameStream::new(rt.alloc(), payload)?;
    let frames = stream.frames();
    let bytes = stream.bytes.len() as u64;
    for piece in PIECES {
        let mut split = Split::new(rt.alloc(), stream.bytes.as_slice(), piece)?;
        let splitting = best(rt, rounds, &mut split)?;
        let mut copy = Copied::new(rt.alloc(), stream.bytes.as_slice(), piece);
        let copying = best(rt, rounds, &mut copy)?;
        let frame = Rate::new(splitting, frames);
        let byte = Rate::new(splitting, bytes);
        let copied = Rate::new(copying, bytes);
        rt.println(format_args!(
            "payload {payload:5} piece {piece:5}: split {frame} ns a frame, {byte} ns a byte; copy {copied} ns a byte"
        ))?;
    }
    Ok(())
}
