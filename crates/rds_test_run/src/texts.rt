//! Tests by whole texts.
use crate::written::{writes, written};
use rds_link::{Gate, MemWire, OpenGate};
use std::alloc::Global;
use std::net::Net;
use std::sync::Wait;
use std::sync::atomic::{AtomicBool, Ordering};
use std::test::Fail;
use std::thread;
use std::thread::Threads;

pub(crate) const HELLO: &[u8] =
    b"hosts 2\nbind A 4000 65536 65536\nbind B 4001 65536 65536\nsend A 4000 B 4001 t:hello\ndrain\nrecv B 4001\n";

pub(crate) const HELLO_TEXT: &[u8] =
    b"A:4000>B:4001 accepted 1 received 1 unread 0 dropped 0 port0 0 cancelled 0 pending 0\n data=68656c6c6f\nend ok\n";

// Three hosts, each of which sends to each other one. One of their streams is cut.
pub(crate) const THREE: &[u8] = b"hosts 3\n\
bind A 4000 65536 65536\nbind B 4001 65536 65536\nbind C 4002 65536 65536\n\
send A 4000 B 4001 t:ab\nsend A 4000 C 4002 t:ac\ncut A B\n\
send B 4001 A 4000 t:ba\nsend B 4001 C 4002 t:bc\n\
send C 4002 A 4000 t:ca\nsend C 4002 B 4001 t:cb\n\
drain\nrecv C 4002\n";

pub(crate) const THREE_TEXT: &[u8] =
    b"B:4001>A:4000 accepted 1 received 1 unread 0 dropped 0 port0 0 cancelled 0 pending 0\n data=6261\n\
C:4002>A:4000 accepted 1 received 1 unread 0 dropped 0 port0 0 cancelled 0 pending 0\n data=6361\n\
A:4000>B:4001 accepted 1 received 1 unread 0 dropped 0 port0 0 cancelled 0 pending 0\n data=6162\n\
C:4002>B:4001 accepted 1 received 1 unread 0 dropped 0 port0 0 cancelled 0 pending 0\n data=6362\n\
A:4000>C:4002 accepted 1 received 1 unread 0 dropped 0 port0 0 cancelled 0 pending 0\n data=6163\n\
B:4001>C:4002 accepted 1 received 1 unread 0 dropped 0 port0 0 cancelled 0 pending 0\n data=6263\n\
end ok\n";

// How many quiet rounds a run over streams in memory has at most.
const ROUNDS: u64 = 20_000_000;

// Whether a run of the script writes this text over streams in memory, of which these openings fail.
fn writes_in_memory<G: Gate + Sync, R: Threads + Wait + Net + Sync>(
    rt: &R,
    alloc: Global,
    script: &[u8],
    fail_open: Vec<u32>,
    gate: &G,
    text: &[u8],
) -> bool {
    let mut wire = MemWire::new(alloc, fail_open, Vec::new(alloc));
    writes(rt, alloc, script, &mut wire, gate, ROUNDS, text)
}

#[test]
fn a_datagram_is_received(rt: HostRuntime) {
    let none = Vec::new(rt.alloc());
    assert!(rt; writes_in_memory(&rt, rt.alloc(), HELLO, none, &OpenGate, HELLO_TEXT));
}

#[test]
fn three_hosts_send_to_each_other(rt: HostRuntime) {
    let none = Vec::new(rt.alloc());
    assert!(rt; writes_in_memory(&rt, rt.alloc(), THREE, none, &OpenGate, THREE_TEXT));
}

#[test]
fn no_stream_can_be_opened(rt: HostRuntime) -> Result<(), Fail> {
    let all = vec![in rt.alloc(); 1, 2, 3]?;
    let line = b"wire fault A B after k=0\n".as_slice();
    assert!(rt; writes_in_memory(&rt, rt.alloc(), HELLO, all, &OpenGate, line));
    Ok(())
}

// Whether a run whose ends fail at their call number `call` writes the report, or that no stream is left after the last one. Ends that
// fail at their first call move nothing, so there only the latter is right.
fn ends_well<R: Threads + Wait + Net + Sync>(rt: &R, alloc: Global, call: u32) -> bool {
    let Ok(fail) = Vec::from_array(alloc, [call]) else {
        return false;
    };
    let mut wire = MemWire::new(alloc, Vec::new(alloc), fail);
    let Some(sink) = written(rt, alloc, HELLO, &mut wire, &OpenGate, ROUNDS) else {
        return false;
    };
    let line = b"wire fault A B after k=3\n".as_slice();
    sink.held() == line || (call > 1 && sink.held() == HELLO_TEXT)
}

#[test]
fn ends_that_fail_once(rt: HostRuntime) {
    for call in 1..=60 {
        assert!(rt; ends_well(&rt, rt.alloc(), call));
    }
}

// A gate that lets neither caller go on before the other has come, or a long time has passed.
#[derive(Drop)]
struct Meeting {
    low: AtomicBool,
    high: AtomicBool,
    late: AtomicBool,
}

impl Gate for Meeting {
    fn at(&self, point: u32, _turn: u32) -> bool {
        let (own, other) = if point == 0 {
            (&self.low, &self.high)
        } else {
            (&self.high, &self.low)
        };
        own.store(true, Ordering::SeqCst);
        for _ in 0..50_000_000 {
            if other.load(Ordering::SeqCst) {
                return true;
            }
            thread::yield_now();
        }
        self.late.store(true, Ordering::SeqCst);
        true
    }
}

#[test]
fn both_callers_wait_at_once(rt: HostRuntime) {
    let gate = Meeting {
        low: AtomicBool::new(false),
        high: AtomicBool::new(false),
        late: AtomicBool::new(false),
    };
    let none = Vec::new(rt.alloc());
    assert!(rt; writes_in_memory(&rt, rt.alloc(), HELLO, none, &gate, HELLO_TEXT));
    assert!(rt; !gate.late.load(Ordering::SeqCst));
}
