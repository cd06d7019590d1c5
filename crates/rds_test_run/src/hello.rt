//! One datagram goes over TCP.
use rds_link::{MemSink, MemSource, OpenGate, Wire};
use rds_run::rds_main;
use rds_tcp::TcpWire;
use std::alloc::Global;
use std::net::Net;
use std::sync::Wait;
use std::test::*;
use std::thread::Threads;

const HELLO: &str =
    "hosts 2\nbind A 4000 65536 65536\nbind B 4001 65536 65536\nsend A 4000 B 4001 t:hello\ndrain\nrecv B 4001\n";

const REPORT: &str =
    "A:4000>B:4001 accepted 1 received 1 unread 0 dropped 0 port0 0 cancelled 0 pending 0\n data=68656c6c6f\nend ok\n";

// The words that ask for a run over TCP.
fn add_words(alloc: Global, words: &mut Vec<String>) -> Result<(), Fail> {
    for word in ["run", "--wire", "tcp"] {
        words.push(String::from_str(alloc, word)?)?;
    }
    Ok(())
}

// Whether the program answers these words and the bytes of the script by the report, and ends of the wire were read in vain.
fn is_answered<R: Threads + Wait + Net + Sync>(
    rt: &R,
    alloc: Global,
    words: &[String],
    script: Vec<u8>,
    wire: &mut TcpWire,
) -> bool {
    let mut source = MemSource::new(script, Vec::new(alloc));
    let mut sink = MemSink::new(alloc, Vec::new(alloc));
    let status = rds_main(rt, alloc, words, &mut source, &mut sink, wire, &OpenGate);
    status == 0 && sink.held() == REPORT.as_bytes() && wire.counts().nothings > 0
}

#[test]
fn a_datagram_goes_over_tcp(rt: HostRuntime) -> Result<(), Fail> {
    let mut words = Vec::new(rt.alloc());
    add_words(rt.alloc(), &mut words)?;
    let script = HELLO.as_bytes().to_vec(rt.alloc())?;
    let mut wire = TcpWire::new(&rt, rt.alloc());
    assert!(rt; is_answered(&rt, rt.alloc(), &words, script, &mut wire));
    wire.finish(&rt);
    Ok(())
}
