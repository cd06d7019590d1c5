//! A send is refused by what its own steps found.
ghost use Rattle.std.specs.Prelude.{◌≡◌, ◌≤◌, [], None};

use rds_cong::PortMap;
use rds_fmap::{MapWriter, Reader, Writer};
use rds_socket::{SendError, Socket};
use rds_test_hosts::{Bound, HandmadeHost, LineCounts};
use rds_wire::{Memory, Payload};
use std::alloc::Global;
use std::sync::Wait;
use std::test::Fail;

/// The host of the socket, 10.0.0.1, and its peer.
const OWN: u32 = 0x0a00_0001;

const PEER: u32 = 0x0a00_0002;

type Answer = Result<(), SendError>;

/// What a send of so many bytes to port 4001 answers.
fn sent(rt: &impl Wait, alloc: Global, socket: &mut Socket<Reader>, peer: u32, len: usize) -> Answer
    requires told { socket.old.told ≡ None }
    requires len { len ≤ 16 }
    ensures { socket.new.told ≡ None }
{
    let bytes = [7; 16];
    let Ok(payload) = Payload::copy_of(alloc, &bytes[..len]) else {
        return Err(SendError::Memory);
    };
    match socket.send(rt, peer, 4001, payload) {
        Ok(()) => Ok(()),
        Err((_, error)) => Err(error),
    }
}

/// A full send buffer, and then room in it.
fn fills(
    rt: &impl Wait,
    alloc: Global,
    socket: &mut Socket<Reader>,
    counts: &mut LineCounts,
) -> [Answer; 3]
    requires { socket.old.told ≡ None }
    ensures { socket.new.told ≡ None }
{
    let first = sent(rt, alloc, socket, PEER, 6);
    let full = sent(rt, alloc, socket, PEER, 5);
    counts.count_freed(6);
    [first, full, sent(rt, alloc, socket, PEER, 5)]
}

/// A peer without a route, a port that is congested, and a datagram that is too long and has no route.
fn refuses(rt: &impl Wait, alloc: Global, socket: &mut Socket<Reader>) -> [Answer; 3]
    requires { socket.old.told ≡ None }
{
    let nobody = sent(rt, alloc, socket, 7, 1);
    let congested = sent(rt, alloc, socket, PEER, 1);
    [nobody, congested, sent(rt, alloc, socket, 7, 11)]
}

/// Publishes a map of the peer in which port 4001 is congested.
fn congest(rt: &impl Wait, alloc: Global, map: &mut Writer) -> Result<u64, Memory>
    requires { map.old.published ≡ [] }
{
    let mut ports = PortMap::new(alloc)?;
    ports.set(4001);
    map.publish(rt, &ports)
}

/// What a socket with a send buffer of 10 bytes answers, and the version of the map with the congested port.
fn answers(
    rt: &impl Wait,
    alloc: Global,
    bound: &mut Bound,
) -> ([Answer; 3], Result<u64, Memory>, [Answer; 3])
    requires told { bound.old.socket.told ≡ None }
    requires map { bound.old.map.published ≡ [] }
{
    let filled = fills(rt, alloc, &mut bound.socket, &mut bound.end.counts);
    let version = congest(rt, alloc, &mut bound.map);
    let refused = refuses(rt, alloc, &mut bound.socket);
    (filled, version, refused)
}

/// `None` where memory runs out.
fn of_a_new_host(
    rt: &impl Wait,
    alloc: Global,
) -> Option<([Answer; 3], Result<u64, Memory>, [Answer; 3])> {
    let Ok(host) = HandmadeHost::new(alloc, OWN, PEER) else {
        return None;
    };
    match host.bind(4000, 10, 100) {
        Ok(mut bound) => Some(answers(rt, alloc, &mut bound)),
        Err(_) => None,
    }
}

#[test]
fn sends_are_refused_by_what_they_found(rt: HostRuntime) -> Result<(), Fail> {
    let (filled, version, refused) = of_a_new_host(&rt, rt.alloc()).expect(&rt, "memory");
    let full = SendError::SendFull {
        queued: 6,
        len: 5,
        limit: 10,
    };
    assert_eq!(rt; filled, [Ok(()), Err(full), Ok(())]);
    assert_eq!(rt; version, Ok(1));
    let nobody = SendError::NoRoute { peer: 7 };
    let congested = SendError::Congested {
        port: 4001,
        version: 1,
    };
    let long = SendError::TooLong { len: 11, limit: 10 };
    assert_eq!(rt; refused, [Err(nobody), Err(congested), Err(long)]);
    Ok(())
}
