//! Two channels over a wire in memory.
ghost use Rattle.std.specs.Prelude.{◌≡◌, false};
ghost use Rattle.rds_link.specs.Memory.{memory_means};
ghost use Rattle.rds_line_channel.specs.Meeting.{AtEach};
ghost use Rattle.rds_line_channel.specs.Streams.{numbers};

use rds_cong::PortMap;
use rds_conn::Pulled;
use rds_line_channel::*;
use rds_link::{Got, MemWire, Put};
use rds_model::Verdict;
use rds_test_hosts::channels::*;
use std::alloc::Global;
use std::net::Net;
use std::sync::Wait;
use std::test::*;
use std::thread::Threads;

// What became of a frame: the sender, the ports and the number of bytes of its datagram, and its verdict.
type Came = (Taken, (u32, u16, u16, u32), Verdict);

type Carried = ((Pulled, Pulled, Put), [Came; 2], bool);

// Pulls the map and the datagram, and writes both.
fn sends(c: &mut Line, alloc: Global) -> Option<(Pulled, Pulled, Put)> {
    let map = PortMap::new(alloc).ok()?;
    Some((pull(c, &map)?, pull(c, &map)?, write(c)?))
}

// The sender, the ports and the number of bytes of the datagram that waits.
fn datagram(c: &Line) -> Option<(u32, u16, u16, u32)> {
    c.waiting()?;
    let datagram = c.datagram().ok()?;
    Some((
        datagram.from,
        datagram.sport,
        datagram.dport,
        datagram.payload.len(),
    ))
}

// Takes a frame, and passes it.
fn takes(c: &mut Line) -> Option<Came> {
    Some((take(c)?, datagram(c)?, pass(c)?))
}

// What comes of the two frames at the other channel.
fn gets(c: &mut Line) -> Option<[Came; 2]> {
    receive(c)?;
    Some([takes(c)?, takes(c)?])
}

// What went over from the first channel to the second, and whether the second one's stream is open after a cut at the first one.
fn carried(a: &mut Line, b: &mut Line, alloc: Global) -> Option<Carried>
    requires first { a.old.streams.is_open ≡ false }
    requires second { b.old.streams.is_open ≡ false }
    requires slots { a.old.conn.slots ≡ 1 }
{
    open(a)?;
    open(b)?;
    send(a, alloc)?;
    let sent = sends(a, alloc)?;
    let came = gets(b)?;
    cut(a)?;
    Some((sent, came, end_if_over(b)?))
}

fn carry<R: Threads + Wait + Net>(rt: &R, alloc: Global) -> Option<Carried> {
    let mut both = prepared(rt, alloc)?;
    carried(&mut both.first, &mut both.second, alloc)
}

#[test]
fn a_datagram_goes_over(rt: HostRuntime) {
    let sent = (Pulled::Map, Pulled::Data, Put::Took(8293));
    let map = (Taken::Frame, (1, 0, 0, 8192), Verdict::Map);
    let to_socket = Verdict::Deliver { dport: 4001 };
    let data = (Taken::Frame, (1, 4000, 4001, 5), to_socket);
    assert!(rt; carry(&rt, rt.alloc()) == Some((sent, [map, data], false)));
}

// What a channel that met another one reads before and after it cuts the stream.
fn met(a: &mut Line, b: &mut Line) -> Option<(Got, bool)>
    requires first { a.old.streams.is_open ≡ false }
    requires second { b.old.streams.is_open ≡ false }
    requires numbers { numbers b.old.streams.list ≡ numbers a.old.streams.list }
    requires pairs { AtEach memory_means.meets a.old.streams.list b.old.streams.list }
{
    open(a)?;
    open(b)?;
    meet::<MemWire>(a, b);
    let came = receive(b)?;
    cut(a)?;
    Some((came, end_if_over(b)?))
}

fn meeting<R: Threads + Wait + Net>(rt: &R, alloc: Global) -> Option<(Got, bool)> {
    let mut both = prepared(rt, alloc)?;
    met(&mut both.first, &mut both.second)
}

#[test]
fn two_channels_meet(rt: HostRuntime) {
    assert!(rt; meeting(&rt, rt.alloc()) == Some((Got::Nothing, false)));
}
