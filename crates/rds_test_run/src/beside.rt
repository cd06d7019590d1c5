//! Two workers of one host run beside each other.
use crate::written::writes;
use rds_link::OpenGate;
use rds_test_wires::{Meeting, MeetingWire};

const SCRIPT: &[u8] = b"hosts 3\nbind A 4000 65536 65536\n";

#[test]
fn two_workers_of_a_host_write_at_once(rt: HostRuntime) {
    let meeting = Meeting::new();
    let mut wire = MeetingWire::new(rt.alloc(), &meeting);
    let text = b"end ok\n".as_slice();
    assert!(rt; writes(&rt, rt.alloc(), SCRIPT, &mut wire, &OpenGate, 1, text));
    assert!(rt; meeting.is_met());
}
