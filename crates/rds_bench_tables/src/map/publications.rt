//! Publications of one map, one after the other.
ghost use Rattle.std.specs.Prelude.{◌≡◌, ◌≤◌, []};

use crate::map::plain::Plain;
use rds_cong::PortMap;
use rds_fmap::{MapWriter, copies, pair};
use std::alloc::Global;
use std::sync::Wait;

// The version after so many publications.
fn publications<W: MapWriter>(
    rt: &impl Wait,
    writer: &mut W,
    map: &PortMap,
    rounds: u32,
) -> Option<u64>
    requires new { W.published writer.old ≡ [] }
    requires rounds { rounds ≤ 4294967 }
{
    let mut version = 0;
    for _ in 0..rounds {
        version = writer.publish(rt, map).ok()?;
    }
    Some(version)
}

/// The version after so many publications over words, or `None` where memory runs out.
pub fn of_words(rt: &impl Wait, alloc: Global, map: &PortMap, rounds: u32) -> Option<u64>
    requires { rounds ≤ 4294967 }
{
    let (mut writer, _readers) = pair(alloc, 1).ok()?;
    publications(rt, &mut writer, map, rounds)
}

/// The same over the two copies.
pub fn of_copies<R: Wait>(rt: &R, alloc: Global, map: &PortMap, rounds: u32) -> Option<u64>
    requires { rounds ≤ 4294967 }
{
    let (mut writer, _readers) = copies::pair(alloc, rt, 1).ok()?;
    publications(rt, &mut writer, map, rounds)
}

/// How often the map was stored into plain atomic words.
pub fn of_plain(alloc: Global, map: &PortMap, rounds: u32) -> Option<u64> {
    let plain = Plain::new(alloc).ok()?;
    let mut stored = 0;
    for _ in 0..rounds {
        plain.publish(map);
        stored += 1;
    }
    Some(stored)
}
