//! Headers that end their stream, that are passed over, or that are cut short.
use crate::steps::{GREATEST, fault_at, feed, header, opened};
use rds_conn::{Conn, ConnError, Fed, Verdict};
use rds_model::{Entry, Journal};
use rds_wire::{CONG_BITMAP, Header, Malformed, RETRANSMITTED, encode};
use std::alloc::Global;

// Malformed headers, and what is wrong with each.
fn malformed() -> [(Header, Malformed); 5] {
    let long = 1_048_577;
    let past = GREATEST + 1;
    [
        (
            header(0, 0, long, 0, CONG_BITMAP),
            Malformed::Length { len: long },
        ),
        (header(0, 1, 0, 0, 0), Malformed::Ack { ack: 1, highest: 0 }),
        (header(0, 0, 0, 1, 0), Malformed::Sequence { number: 0 }),
        (header(0, 0, 5, 4001, 0), Malformed::Sequence { number: 0 }),
        (
            header(past, 0, 5, 4001, 0),
            Malformed::Sequence { number: past },
        ),
    ]
}

// What a header is answered, the fault in its entry of the journal, and what further bytes are answered.
type Refused = (
    Result<Fed, ConnError>,
    Option<Malformed>,
    Result<Fed, ConnError>,
);

fn refused_on(conn: &mut Conn, header: &Header) -> Refused {
    let answer = feed(conn, &encode(header));
    let fault = fault_at(conn.journal(), 1);
    (answer, fault, feed(conn, b"more"))
}

fn refused(alloc: Global, header: &Header) -> Result<Refused, ConnError> {
    let mut kept = opened(alloc, 1)?;
    Ok(refused_on(&mut kept.conn, header))
}

// What is to become of a header with this fault.
fn refusal(fault: Malformed) -> Refused {
    let answer = Err(ConnError::Malformed(fault));
    (answer, Some(fault), Err(ConnError::Closed))
}

#[test]
fn a_malformed_header_ends_its_stream(rt: HostRuntime) {
    for (header, fault) in &malformed() {
        assert!(rt; refused(rt.alloc(), header) == Ok(refusal(*fault)));
    }
}

// Headers that no sender makes, and the verdict on each.
fn odd() -> [(Header, Verdict); 5] {
    let to_socket = Verdict::Deliver { dport: 4001 };
    let ignored = Header {
        credit: 255,
        padding: [255; 4],
        ..header(1, 0, 0, 4001, 0xF8)
    };
    [
        (header(0, 0, 5, 0, CONG_BITMAP), Verdict::OddMap),
        (header(0, 0, 0, 0, RETRANSMITTED), Verdict::AckOnly),
        (header(1, 0, 0, 0, 0), Verdict::Void),
        (header(GREATEST, 0, 0, 4001, 0), to_socket),
        (ignored, to_socket),
    ]
}

fn judged_on(conn: &mut Conn, header: &Header) -> Result<Option<Verdict>, ConnError> {
    feed(conn, &encode(header))?;
    feed(conn, b"hello")?;
    Ok(conn.verdict())
}

fn judged(alloc: Global, header: &Header) -> Result<Option<Verdict>, ConnError> {
    let mut kept = opened(alloc, 1)?;
    judged_on(&mut kept.conn, header)
}

#[test]
fn an_odd_frame_has_its_verdict(rt: HostRuntime) {
    for (header, verdict) in &odd() {
        assert!(rt; judged(rt.alloc(), header) == Ok(Some(*verdict)));
    }
}

// The stream was opened and shut, and nothing else happened.
fn has_nothing(journal: &Journal) -> bool {
    journal.len() == 2
        && matches!(journal.at(0), Some(Entry::Open { stream: 1 }))
        && matches!(journal.at(1), Some(Entry::Shut { stream: 1 }))
}

// Takes all but the last byte of a header, and shuts the stream. Answers what was taken, which stream was shut, and whether
// nothing is left of the header.
fn cut_short_on(conn: &mut Conn) -> Result<(Fed, Option<u32>, bool), ConnError> {
    let took = feed(conn, &[0; 47])?;
    conn.reserve()?;
    let stream = conn.stream();
    if stream.is_some() {
        conn.shut();
    }
    Ok((took, stream, has_nothing(conn.journal())))
}

fn cut_short(alloc: Global) -> Result<(Fed, Option<u32>, bool), ConnError> {
    let mut kept = opened(alloc, 1)?;
    cut_short_on(&mut kept.conn)
}

#[test]
fn a_header_cut_short_leaves_nothing(rt: HostRuntime) {
    let took = Fed {
        used: 47,
        waiting: false,
    };
    assert!(rt; cut_short(rt.alloc()) == Ok((took, Some(1), true)));
}
