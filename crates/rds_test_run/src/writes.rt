//! Each write of a text fails in turn, over a sink that takes a few bytes at a time.
ghost use Rattle.std.specs.Prelude.{Some};

use crate::answering::add_words;
use crate::texts::{HELLO, HELLO_TEXT, THREE, THREE_TEXT};
use rds_link::{Failed, MemSink, MemSource, MemWire, OpenGate, Sink};
use rds_run::rds_main;
use std::alloc::Global;
use std::net::Net;
use std::sync::Wait;
use std::test::*;
use std::thread::Threads;

// The whole text of `play` for the script HELLO.
const TRANSCRIPT: &[u8] = b"bind A 4000 slot 0\n\
bind B 4001 slot 0\n\
A:B accept n=1 slot=0 4000>4001 data=68656c6c6f\n\
A:B open k=1\n\
B:A open k=1\n\
A:B pull k=1 map ack=0 set=-\n\
B:A read k=1 map ack=0 set=-\n\
A:B pull k=1 data n=1 ack=0 flags=02 4000>4001 len=5\n\
B:A read k=1 data n=1 ack=0 flags=02 4000>4001 len=5 slot 0\n\
B:A pull k=1 map ack=1 set=-\n\
A:B read k=1 map ack=1 set=-\n\
drained\n\
recv B 4001 A:4000 data=68656c6c6f\n\
A:4000>B:4001 accepted 1 received 1 unread 0 dropped 0 port0 0 cancelled 0 pending 0\n data=68656c6c6f\n\
end ok\n";

/// How many bytes the sink takes at most.
const SIP: usize = 7;

/// A sink in memory that takes few bytes at a time.
#[derive(Drop)]
struct Sipping {
    sink: MemSink,
}

impl Sink for Sipping {
    ghost held = { λ s. Some s.sink.held };

    ghost faults = { λ s. s.sink.faults };

    fn write(&mut self, piece: &[u8]) -> Result<usize, Failed> {
        let few = piece.len().min(SIP);
        self.sink.write(&piece[..few])
    }
}

// The program's status where the write with this number fails, and whether the sink then holds this text.
fn ended<R: Threads + Wait + Net + Sync>(
    rt: &R,
    alloc: Global,
    words: &[String],
    script: &[u8],
    number: u32,
    text: &[u8],
) -> Option<(u8, bool)> {
    let fail = Vec::from_array(alloc, [number]).ok()?;
    let mut source = MemSource::new(script.to_vec(alloc).ok()?, Vec::new(alloc));
    let mut sink = Sipping {
        sink: MemSink::new(alloc, fail),
    };
    let mut tcp = MemWire::new(alloc, Vec::new(alloc), Vec::new(alloc));
    let status = rds_main(
        rt,
        alloc,
        words,
        &mut source,
        &mut sink,
        &mut tcp,
        &OpenGate,
    );
    Some((status, sink.sink.held() == text))
}

// Whether each write that fails leaves what was written before it, at status 4, and one after the last leaves the text.
fn each_write_fails<R: Threads + Wait + Net + Sync>(
    rt: &R,
    alloc: Global,
    words: &[&str],
    script: &[u8],
    text: &[u8],
) -> bool {
    let mut all = Vec::new(alloc);
    if !add_words(alloc, &mut all, words) {
        return false;
    }
    let mut number = 1u32;
    let mut written = 0;
    for piece in text.chunks(SIP) {
        let before = text.get(..written).unwrap_or(&[]);
        if ended(rt, alloc, &all, script, number, before) != Some((4, true)) {
            return false;
        }
        number = number.wrapping_add(1);
        written = piece.len().wrapping_add(written);
    }
    ended(rt, alloc, &all, script, number, text) == Some((0, true))
}

#[test]
fn each_write_of_a_transcript_fails(rt: HostRuntime) {
    assert!(rt; each_write_fails(&rt, rt.alloc(), &["play"], HELLO, TRANSCRIPT));
}

#[test]
fn each_write_of_a_report_fails(rt: HostRuntime) {
    assert!(rt; each_write_fails(&rt, rt.alloc(), &["run"], HELLO, HELLO_TEXT));
    assert!(rt; each_write_fails(&rt, rt.alloc(), &["run"], THREE, THREE_TEXT));
}
