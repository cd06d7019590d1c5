//! What the two hosts do.
ghost use Rattle.std.specs.Prelude.{◌≡◌, [], None};

use crate::hosts::out_of_memory;
use crate::steps::{carry, close, receive, send};
use crate::waiting::NextDatagram;
use futures::test::MockTask;
use rds_cong::PortMap;
use rds_fmap::{MapWriter, Reader, Writer};
use rds_socket::Socket;
use rds_test_hosts::Bound;
use std::alloc::AllocGlobal;
use std::io::Print;
use std::random::RandomSource;
use std::sync::Wait;

pub fn tell<R: Print + Wait + AllocGlobal + RandomSource>(
    rt: &R,
    mut a: Bound,
    mut b: Bound,
) -> anyhow::Result<()>
    requires told { a.socket.told ≡ None }
    requires map { a.map.published ≡ [] }
{
    let used = use_sockets(rt, &mut a, &mut b);
    close_sockets(rt, a.into_socket(), b.into_socket())?;
    used
}

fn use_sockets<R: Print + Wait + AllocGlobal + RandomSource>(
    rt: &R,
    a: &mut Bound,
    b: &mut Bound,
) -> anyhow::Result<()>
    requires told { a.old.socket.told ≡ None }
    requires map { a.old.map.published ≡ [] }
{
    wait_and_receive(rt, a, b)?;
    fill_the_buffer(rt, a, b)?;
    meet_congestion(rt, &mut a.socket, &mut a.map)
}

fn close_sockets(
    rt: &(impl Print + Wait),
    a: Socket<Reader>,
    b: Socket<Reader>,
) -> anyhow::Result<()> {
    close(rt, "A", a)?;
    close(rt, "B", b)
}

// B waits for a datagram. A sends one, it is carried to B, and B's task is woken.
fn wait_and_receive<R: Print + Wait + AllocGlobal + RandomSource>(
    rt: &R,
    a: &mut Bound,
    b: &mut Bound,
) -> anyhow::Result<()>
    requires { a.old.socket.told ≡ None }
    ensures told { a.new.socket.told ≡ None }
    ensures map { a.new.map ≡ a.old.map }
{
    let task = MockTask::new(rt)?;
    wait(rt, &task, &mut b.socket)?;
    send(rt, &mut a.socket, "hello")?;
    carry(rt, &mut a.end, &mut b.end)?;
    if task.is_woken() {
        println!(rt; "B's task is woken.")?;
    }
    receive(rt, &mut b.socket)
}

// The task looks for a datagram, and will be woken when one comes.
fn wait<R: Print + Wait>(rt: &R, task: &MockTask, b: &mut Socket<Reader>) -> anyhow::Result<()> {
    let mut next = NextDatagram { rt, socket: b };
    if task.poll(&mut next).is_pending() {
        println!(rt; "B waits for a datagram.")?;
    }
    Ok(())
}

// What A sends has to fit into its send buffer with what B hasn't acknowledged yet.
fn fill_the_buffer<R: Print + Wait + AllocGlobal + RandomSource>(
    rt: &R,
    a: &mut Bound,
    b: &mut Bound,
) -> anyhow::Result<()>
    requires { a.old.socket.told ≡ None }
    ensures told { a.new.socket.told ≡ None }
    ensures map { a.new.map ≡ a.old.map }
{
    send(rt, &mut a.socket, "again")?;
    send(rt, &mut a.socket, "more")?;
    carry(rt, &mut a.end, &mut b.end)?;
    send(rt, &mut a.socket, "more")?;
    carry(rt, &mut a.end, &mut b.end)?;
    receive(rt, &mut b.socket)
}

// While A's map of B has the port set, nothing can be sent to it.
fn meet_congestion<R: Print + Wait + AllocGlobal>(
    rt: &R,
    a: &mut Socket<Reader>,
    map_of_b: &mut Writer,
) -> anyhow::Result<()>
    requires told { a.old.told ≡ None }
    requires map { map_of_b.old.published ≡ [] }
{
    let mut map = PortMap::new(rt.alloc()).map_err(out_of_memory)?;
    map.set(4001);
    map_of_b.publish(rt, &map).map_err(out_of_memory)?;
    send(rt, a, "later")?;
    map.clear(4001);
    map_of_b.publish(rt, &map).map_err(out_of_memory)?;
    send(rt, a, "later")
}
