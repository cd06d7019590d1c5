//! A socket that is polled, and whose answers follow the state just written.
ghost use Rattle.std.specs.Prelude.{◌≡◌, [], None, IfSome};

use futures::task::Poll;
use futures::test::MockTask;
use rds_cong::PortMap;
use rds_fmap::{MapWriter, Reader, Seen, Writer};
use rds_model::Datagram;
use rds_socket::{NoRoute, Socket};
use rds_test_hosts::{Bound, HandmadeHost, LineCounts, LineEnd};
use rds_wire::{Memory, Payload};
use std::alloc::{AllocGlobal, Global};
use std::random::RandomSource;
use std::sync::Wait;
use std::test::Fail;

const PEER: u32 = 2;

/// The sender's port and the length of a datagram, or `None` where there was none.
type Came = Option<(u16, u32)>;

/// What polls found, whether `recv` found nothing, what was found of the send buffer, and of a port of the peer.
type Answers = (
    (Came, bool, bool, Came),
    bool,
    (bool, bool, bool),
    [Result<Seen, NoRoute>; 2],
);

/// Puts one datagram of two bytes and rings.
fn delivers(rt: &impl Wait, alloc: Global, end: &mut LineEnd) -> Result<(), Memory> {
    let payload = Payload::copy_of(alloc, b"hi")?;
    let datagram = Datagram {
        from: PEER,
        sport: 5,
        dport: 4000,
        payload,
    };
    end.deliver(rt, datagram)
}

/// What a poll takes, or `None` where it is pending.
fn polled(rt: &impl Wait, task: &MockTask, socket: &mut Socket<Reader>) -> Came {
    match task.enter(|cx| socket.poll_recv(rt, cx)) {
        Poll::Ready(Ok(item)) => Some((item.sport, item.payload.len())),
        _ => None,
    }
}

/// What polls find before and after a delivery, and whether the task was woken by then.
fn polls(
    rt: &impl Wait,
    alloc: Global,
    task: &MockTask,
    socket: &mut Socket<Reader>,
    end: &mut LineEnd,
) -> (Came, bool, bool, Came) {
    let before = polled(rt, task, socket);
    let early = task.is_woken();
    let _ = delivers(rt, alloc, end);
    let woken = task.is_woken();
    (before, early, woken, polled(rt, task, socket))
}

/// Whether a datagram is sent that fills the send buffer.
fn fills(rt: &impl Wait, alloc: Global, socket: &mut Socket<Reader>) -> bool
    requires { socket.old.told ≡ None }
{
    match Payload::copy_of(alloc, &[7; 10]) {
        Ok(payload) => socket.send(rt, PEER, 4001, payload).is_ok(),
        Err(_) => false,
    }
}

/// Whether the send buffer is filled, and whether it can take more before and after its bytes were freed.
fn writes(
    rt: &impl Wait,
    alloc: Global,
    socket: &mut Socket<Reader>,
    counts: &mut LineCounts,
) -> (bool, bool, bool)
    requires { socket.old.told ≡ None }
{
    let is_filled = fills(rt, alloc, socket);
    let before = socket.writable();
    counts.count_freed(10);
    (is_filled, before, socket.writable())
}

/// Publishes a map of the peer in which port 4001 is congested.
fn congest(rt: &impl Wait, alloc: Global, map: &mut Writer) -> Result<u64, Memory>
    requires { map.old.published ≡ [] }
{
    let mut ports = PortMap::new(alloc)?;
    ports.set(4001);
    map.publish(rt, &ports)
}

/// What is seen of port 4001 before and after it is published as congested.
fn looks(
    rt: &impl Wait,
    alloc: Global,
    socket: &mut Socket<Reader>,
    map: &mut Writer,
) -> [Result<Seen, NoRoute>; 2]
    requires { map.old.published ≡ [] }
{
    let clear = socket.congested(PEER, 4001);
    let _ = congest(rt, alloc, map);
    [clear, socket.congested(PEER, 4001)]
}

/// What one socket answers: to polls, to `recv`, of its send buffer and of a port of the peer.
fn answers(rt: &impl Wait, alloc: Global, task: &MockTask, bound: &mut Bound) -> Answers
    requires told { bound.old.socket.told ≡ None }
    requires map { bound.old.map.published ≡ [] }
{
    let writes = writes(rt, alloc, &mut bound.socket, &mut bound.end.counts);
    let polls = polls(rt, alloc, task, &mut bound.socket, &mut bound.end);
    let is_empty = bound.socket.recv(rt).is_none();
    let looks = looks(rt, alloc, &mut bound.socket, &mut bound.map);
    (polls, is_empty, writes, looks)
}

fn bound(alloc: Global) -> Option<Bound>
    ensures told { IfSome result (λ b. b.socket.told ≡ None) }
    ensures map { IfSome result (λ b. b.map.published ≡ []) }
{
    let Ok(host) = HandmadeHost::new(alloc, 1, PEER) else {
        return None;
    };
    match host.bind(4000, 10, 100) {
        Ok(bound) => Some(bound),
        Err(_) => None,
    }
}

/// What the socket of a new host answers. `None` where memory runs out.
fn of_a_new_host(rt: &impl Wait, alloc: Global, task: &MockTask) -> Option<Answers> {
    let mut bound = bound(alloc)?;
    Some(answers(rt, alloc, task, &mut bound))
}

/// The same, polled by a new task.
fn of_a_new_task<R: Wait + AllocGlobal + RandomSource>(rt: &R) -> Option<Answers> {
    let task = MockTask::new(rt).ok()?;
    of_a_new_host(rt, rt.alloc(), &task)
}

#[test]
fn answers_follow_what_was_written(rt: HostRuntime) -> Result<(), Fail> {
    let (polls, is_empty, writes, looks) = of_a_new_task(&rt).expect(&rt, "memory");
    assert_eq!(rt; polls, (None, false, true, Some((5, 2))));
    assert!(rt; is_empty);
    assert_eq!(rt; writes, (true, false, true));
    let clear = Seen {
        version: 0,
        set: false,
    };
    let set = Seen {
        version: 1,
        set: true,
    };
    assert_eq!(rt; looks, [Ok(clear), Ok(set)]);
    Ok(())
}
