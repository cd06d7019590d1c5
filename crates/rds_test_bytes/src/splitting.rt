ghost use Rattle.std.specs.Prelude.{◌<◌};

use rds_frame::*;
use rds_wire::{
    ACK_REQUIRED, CONG_BITMAP, Ext, Frame, Header, MAP_LENGTH, Malformed, encode, put_ext, sealed,
};
use std::alloc::{AllocError, Global};
use std::process::Abort;
use std::test::Fail;

fn header(sequence: u64, ack: u64, len: u32, flags: u8) -> Header {
    Header {
        sequence,
        ack,
        len,
        sport: 4000,
        dport: 4001,
        flags,
        credit: 0,
        padding: [0; 4],
        csum: 0,
        ext: [0; 16],
    }
}

fn took(used: usize, ready: bool) -> Result<Took, FrameError> {
    Ok(Took { used, ready })
}

// The datagram `hello`, a map, whose payload is long, and a datagram without bytes: a short payload, a long one, none.
fn hello(alloc: Global) -> Result<Vec<u8>, AllocError> {
    let mut bytes = encode(&sealed(header(1, 0, 5, 0))).to_vec(alloc)?;
    bytes.extend_from_slice(b"hello")?;
    bytes.extend_from_slice(&encode(&sealed(header(0, 0, MAP_LENGTH, CONG_BITMAP))))?;
    bytes.extend_from_slice(&[0; 8192])?;
    bytes.extend_from_slice(&encode(&sealed(header(2, 0, 0, ACK_REQUIRED))))?;
    Ok(bytes)
}

fn pieces(alloc: Global, bytes: &[u8], length: usize) -> Result<Vec<Vec<u8>>, AllocError>
    requires { 0 < length }
{
    let mut pieces = Vec::new(alloc);
    for piece in bytes.chunks(length) {
        pieces.push(piece.to_vec(alloc)?)?;
    }
    Ok(pieces)
}

fn are_whole(rt: &impl Abort, whole: &[Frame]) {
    assert_eq!(rt; whole.len(), 3);
    assert_eq!(rt; whole[0].payload.as_slice(), b"hello".as_slice());
    assert_eq!(rt; whole[1].payload.len(), MAP_LENGTH);
}

fn are_alike(rt: &impl Abort, frames: &[Frame], whole: &[Frame]) {
    for (frame, wanted) in frames.iter().zip(whole.iter()) {
        assert_eq!(rt; frame.header, wanted.header);
        assert_eq!(rt; frame.payload.as_slice(), wanted.payload.as_slice());
    }
}

// Pieces of this length give the frames that the whole gives.
fn give(
    rt: &(impl Abort + AllocGlobal),
    cut: &[Vec<u8>],
    whole: &[Frame],
    length: usize,
) -> Result<(), Fail> {
    let frames = frames_of(rt.alloc(), cut, 0, 0)?;
    assert_eq!(rt; frames.len(), 3, "pieces of {length}");
    are_alike(rt, &frames, whole);
    Ok(())
}

fn each_length_gives(
    rt: &(impl Abort + AllocGlobal),
    bytes: &[u8],
    whole: &[Frame],
) -> Result<(), Fail> {
    for length in 1..=100 {
        let cut = pieces(rt.alloc(), bytes, length)?;
        give(rt, &cut, whole, length)?;
    }
    Ok(())
}

#[test]
fn pieces_of_every_length(rt: HostRuntime) -> Result<(), Fail> {
    let bytes = hello(rt.alloc())?;
    let whole = frames_in(rt.alloc(), &bytes, 0, 0)?;
    are_whole(&rt, &whole);
    each_length_gives(&rt, &bytes, &whole)
}

// The header is refused when its last byte comes, and nothing is taken behind it.
fn is_refused(rt: &impl Abort, splitter: &mut Splitter, header: &Header, fault: Malformed) {
    let bytes = encode(header);
    assert_eq!(rt; splitter.take(&bytes[..20], 0, 0), took(20, false));
    assert_eq!(rt; splitter.refused(), None);
    assert_eq!(rt;
        splitter.take(&bytes[20..], 0, 0),
        Err(FrameError::Malformed(fault))
    );
    assert_eq!(rt; splitter.take(&bytes, 0, 0), Err(FrameError::Closed));
    assert_eq!(rt; splitter.refused(), Some(header));
}

fn is_open_once_wiped(rt: &impl Abort, splitter: &mut Splitter) {
    splitter.wipe();
    assert_eq!(rt; splitter.refused(), None);
    assert_eq!(rt; splitter.take(b"", 0, 0), took(0, false));
}

fn closes(rt: &(impl Abort + AllocGlobal), header: &Header, fault: Malformed) -> Result<(), Fail> {
    let mut splitter = Splitter::new(rt.alloc())?;
    is_refused(rt, &mut splitter, header, fault);
    is_open_once_wiped(rt, &mut splitter);
    Ok(())
}

#[test]
fn a_refused_header_closes(rt: HostRuntime) -> Result<(), Fail> {
    let long = Malformed::Length { len: 1_048_577 };
    closes(&rt, &header(1, 0, 1_048_577, 0), long)?;
    let none = Malformed::Sequence { number: 0 };
    closes(&rt, &header(0, 0, 5, 0), none)?;
    let past = 1 << 63;
    let high = Malformed::Sequence { number: past };
    closes(&rt, &header(past, 0, 5, 0), high)
}

#[test]
fn the_highest_number_is_that_of_the_last_byte(rt: HostRuntime) -> Result<(), Fail> {
    let bytes = encode(&header(1, 5, 0, 0));
    let (front, last) = bytes.split_at(47);
    let mut splitter = Splitter::new(rt.alloc())?;
    assert_eq!(rt; splitter.take(front, 0, 0), took(47, false));
    assert_eq!(rt; splitter.take(last, 5, 0), took(1, true));
    assert_eq!(rt; splitter.take(last, 0, 0), took(0, true));
    assert!(rt; splitter.ready().is_some());
    assert!(rt; splitter.done().is_some());
    assert!(rt; splitter.done().is_none());
    splitter.take(front, 5, 0)?;
    let early = Malformed::Ack { ack: 5, highest: 4 };
    assert_eq!(rt;
        splitter.take(last, 4, 0),
        Err(FrameError::Malformed(early))
    );
    Ok(())
}

// A datagram of this generation.
fn of_generation(generation: u32) -> Header {
    Header {
        ext: put_ext(&Ext::Generation(generation)),
        ..header(1, 0, 0, 0)
    }
}

#[test]
fn the_known_generation_is_that_of_the_last_byte(rt: HostRuntime) -> Result<(), Fail> {
    let bytes = encode(&of_generation(2));
    let (front, last) = bytes.split_at(47);
    let mut splitter = Splitter::new(rt.alloc())?;
    assert_eq!(rt; splitter.take(front, 0, 3), took(47, false));
    assert_eq!(rt; splitter.take(last, 0, 2), took(1, true));
    assert!(rt; splitter.done().is_some());
    splitter.take(front, 0, 2)?;
    let old = Malformed::Generation { found: 2, known: 3 };
    assert_eq!(rt; splitter.take(last, 0, 3), Err(FrameError::Malformed(old)));
    Ok(())
}
