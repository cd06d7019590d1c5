//! A run whose datagram is never acknowledged ends once its budget is spent.
use crate::written::writes;
use rds_link::OpenGate;
use rds_test_wires::DeafWire;

const SCRIPT: &[u8] =
    b"hosts 2\nbind A 4000 65536 65536\nbind B 4001 65536 65536\nsend A 4000 B 4001 t:hello\ndrain\nrecv B 4001\n";

#[test]
fn one_datagram_is_left(rt: HostRuntime) {
    let mut wire = DeafWire::new(rt.alloc());
    let line = b"unfinished 1\n".as_slice();
    assert!(rt; writes(&rt, rt.alloc(), SCRIPT, &mut wire, &OpenGate, 1_000, line));
}
