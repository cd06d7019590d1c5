//! What a line does when a datagram comes.
ghost use Rattle.std.specs.Prelude.{◌≡◌, ◌+◌, ◌≤◌, ◌^◌};
ghost use Rattle.rds_meter.specs.Places.{part, put_word};

use crate::parts::{ports, words};
use rds_line_parts::{LinePorts, LineWords, OwnMap};
use rds_wire::Memory;
use std::alloc::Global;
use std::test::Fail;

// A delivery of so many bytes to the port, after which the words of the host's own map were read or not, and have the port or not.
fn delivered(
    own: &mut OwnMap,
    words: &mut LineWords,
    ports: &mut LinePorts,
    port: u16,
    n: u32,
) -> (bool, bool)
    requires { part (put_word 0) words.old.view.steps + n ≤ 2 ^ 52 }
    ensures { part (put_word 0) words.new.view.steps ≡ part (put_word 0) words.old.view.steps + n }
{
    words.deliver(ports, 0, port, n);
    let read = own.refresh(words);
    (read, own.map().has(port))
}

// Deliveries up to the limit, of nothing more, above the limit, and to a port that no socket holds.
fn deliveries(own: &mut OwnMap, words: &mut LineWords, ports: &mut LinePorts) -> [(bool, bool); 4]
    requires { part (put_word 0) words.old.view.steps ≡ 0 }
{
    [
        delivered(own, words, ports, 4001, 10),
        delivered(own, words, ports, 4001, 0),
        delivered(own, words, ports, 4001, 1),
        delivered(own, words, ports, 4002, 1),
    ]
}

fn delivered_to(
    own: &mut OwnMap,
    ports: &mut LinePorts,
    alloc: Global,
) -> Result<[(bool, bool); 4], Memory> {
    let mut words = words(alloc)?;
    Ok(deliveries(own, &mut words, ports))
}

fn delivered_by(own: &mut OwnMap, alloc: Global) -> Result<[(bool, bool); 4], Memory> {
    let mut ports = ports(alloc)?;
    delivered_to(own, &mut ports, alloc)
}

fn all_delivered(alloc: Global) -> Result<[(bool, bool); 4], Memory> {
    let mut own = OwnMap::new(alloc)?;
    delivered_by(&mut own, alloc)
}

#[test]
fn a_delivery_above_the_limit_shows_in_the_own_map(rt: HostRuntime) -> Result<(), Fail> {
    let answers = all_delivered(rt.alloc())?;
    let expected = [(true, false), (false, false), (true, true), (true, false)];
    assert!(rt; answers == expected);
    Ok(())
}
