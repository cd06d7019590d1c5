//! A worker writes the frame of a caller's command while that caller waits at its gate for its next one.
use crate::written::writes;
use rds_link::Gate;
use rds_test_wires::CountingWire;
use std::sync::atomic::{AtomicBool, AtomicUsize, Ordering};
use std::thread;

const SCRIPT: &[u8] =
    b"hosts 2\nbind A 4000 65536 65536\nbind B 4001 65536 65536\nsend A 4000 B 4001 t:a\nsend A 4000 B 4001 t:b\nrecv B 4001\nrecv B 4001\n";

const TEXT: &[u8] =
    b"A:4000>B:4001 accepted 2 received 2 unread 0 dropped 0 port0 0 cancelled 0 pending 0\n data=61\n data=62\nend ok\n";

/// The bytes of a congestion map's frame, and those of a datagram with one byte.
const MAP: usize = 8_240;

const DATUM: usize = 49;

/// The bytes of the map and of both datagrams.
const ALL: usize = 8_338;

/// A gate at which host A waits until its ends have taken the map, and then all that its commands so far have sent.
#[derive(Drop)]
struct Counted<'a> {
    taken: &'a AtomicUsize,
    is_late: AtomicBool,
}

impl Counted<'_> {
    // Waits until the count is this one, or for a long time.
    fn wait_for(&self, count: usize) {
        for _ in 0..50_000_000 {
            if self.taken.load(Ordering::SeqCst) >= count {
                break;
            }
            thread::yield_now();
        }
        if self.taken.load(Ordering::SeqCst) != count {
            self.is_late.store(true, Ordering::SeqCst);
        }
    }
}

impl Gate for Counted<'_> {
    fn at(&self, point: u32, turn: u32) -> bool {
        if point == 0 {
            let sent = (turn as usize).wrapping_mul(DATUM);
            self.wait_for(MAP.wrapping_add(sent));
        }
        true
    }
}

#[test]
fn frames_are_written_while_the_caller_waits(rt: HostRuntime) {
    let taken = AtomicUsize::new(0);
    let gate = Counted {
        taken: &taken,
        is_late: AtomicBool::new(false),
    };
    let mut wire = CountingWire::new(rt.alloc(), &taken);
    assert!(rt; writes(&rt, rt.alloc(), SCRIPT, &mut wire, &gate, 1, TEXT));
    assert!(rt; !gate.is_late.load(Ordering::SeqCst));
    assert!(rt; taken.load(Ordering::SeqCst) == ALL);
}
