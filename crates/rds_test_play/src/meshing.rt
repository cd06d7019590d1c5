ghost use Rattle.std.specs.Prelude.{◌≡◌, ◌≢◌, ◌<◌, OnOk};

use rds_cong::PortMap;
use rds_model::{Entry, Journal, Order, Outcome};
use rds_play_mesh::{Mesh, PairError};
use rds_text::address;
use rds_wire::{Memory, Payload};
use std::alloc::Global;
use std::process::Abort;
use std::test::Fail;

// A datagram that hosts send, and the congestion map of each.
struct Sent {
    order: Order,
    map: PortMap,
}

impl Drop for Sent {
    fn drop(self) {
        let Self {
            order: _order,
            map: _map,
        } = self;
    }
}

// A socket at port 4000 sends `hello` to port 4001.
fn hello(alloc: Global) -> Result<Sent, Memory> {
    Ok(Sent {
        order: Order::Send {
            slot: 0,
            sport: 4000,
            dport: 4001,
            payload: Payload::copy_of(alloc, b"hello")?,
        },
        map: PortMap::new(alloc)?,
    })
}

// Hosts A and B send the datagram to C.
fn play(mesh: &mut Mesh, sent: &Sent) -> Result<(), PairError>
    requires { mesh.old.count ≡ 3 }
    ensures { OnOk result (mesh.new.count ≡ 3) }
{
    deliver(mesh, sent, 0, 2)?;
    deliver(mesh, sent, 1, 2)
}

// The datagram goes from one host to another over the first stream, behind the congestion map.
fn deliver(mesh: &mut Mesh, sent: &Sent, from: u8, to: u8) -> Result<(), PairError>
    requires three { mesh.old.count ≡ 3 }
    requires from { from < 3 }
    requires to { to < 3 }
    requires apart { to ≢ from }
    ensures { OnOk result (mesh.new.count ≡ 3) }
{
    mesh.order(from, to, &sent.order)?;
    mesh.open(from, to)?;
    carry(mesh, sent, from, to)?;
    carry(mesh, sent, from, to)
}

// A frame goes from one host to another, which passes it.
fn carry(mesh: &mut Mesh, sent: &Sent, from: u8, to: u8) -> Result<(), PairError>
    requires three { mesh.old.count ≡ 3 }
    requires from { from < 3 }
    requires to { to < 3 }
    requires apart { to ≢ from }
    ensures { OnOk result (mesh.new.count ≡ 3) }
{
    mesh.pull(from, to, &sent.map)?;
    mesh.feed(from, to, 10_000)?;
    mesh.pass(to, from, Some(3))
}

// The last entry of a journal of three is the delivery to slot 3.
fn assert_delivered(rt: &impl Abort, journal: &Journal) {
    assert!(rt;
        matches!(
            journal.at(2),
            Some(Entry::Read {
                outcome: Outcome::Slot(3),
                ..
            })
        )
    );
}

// A journal with the host of this letter has so many entries.
fn assert_row(rt: &impl Abort, row: &[(u32, Journal)], peers: [u8; 2], lengths: [u32; 2]) {
    assert_eq!(rt; row.len(), 2);
    for i in 0..2 {
        let (peer, journal) = &row[i];
        assert_eq!(rt; *peer, address(peers[i]));
        assert_eq!(rt; journal.len(), lengths[i]);
    }
}

#[test]
fn two_hosts_reach_the_third_and_leave_one_another_alone(rt: HostRuntime) -> Result<(), Fail> {
    let sent = hello(rt.alloc())?;
    let mut mesh = Mesh::new(rt.alloc(), 3, 100)?;
    assert_eq!(rt; play(&mut mesh, &sent), Ok(()));
    assert_delivered(&rt, mesh.journal(2, 0));
    assert_delivered(&rt, mesh.journal(2, 1));
    assert_eq!(rt; mesh.journal(0, 1).len(), 0);
    assert_eq!(rt; mesh.journal(1, 0).len(), 0);
    Ok(())
}

#[test]
fn each_host_keeps_its_journals_by_peer(rt: HostRuntime) -> Result<(), Fail> {
    let sent = hello(rt.alloc())?;
    let mut mesh = Mesh::new(rt.alloc(), 3, 100)?;
    assert_eq!(rt; play(&mut mesh, &sent), Ok(()));
    let rows = mesh.into_journals(rt.alloc())?;
    assert_row(&rt, &rows[0], [1, 2], [0, 4]);
    assert_row(&rt, &rows[1], [0, 2], [0, 4]);
    assert_row(&rt, &rows[2], [0, 1], [3, 3]);
    Ok(())
}
