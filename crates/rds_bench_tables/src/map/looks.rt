//! Looks at one port that is congested.
ghost use Rattle.std.specs.Prelude.{◌≡◌, ◌*◌, ◌≤◌, IfSome};

use crate::map::plain::Plain;
use rds_cong::PortMap;
use rds_fmap::{MapReader, MapWriter, Reader, copies, pair};
use std::alloc::Global;
use std::sync::Wait;
use std::thread;
use std::thread::Threads;

const PORT: u16 = 4001;

/// The map with the port alone.
pub fn congested(alloc: Global) -> Option<PortMap> {
    let mut map = PortMap::new(alloc).ok()?;
    map.set(PORT);
    Some(map)
}

// How often the port was found congested.
fn looks<R: MapReader>(reader: &mut R, rounds: u32) -> u64
    ensures { result ≤ rounds }
{
    let mut set = 0;
    for _ in 0..rounds {
        if reader.bit(PORT).set {
            set += 1;
        }
    }
    set
}

fn by_two<R: Threads + Sync>(rt: &R, first: &mut Reader, second: &mut Reader, rounds: u32) -> u64
    ensures { result ≤ 2 * rounds }
{
    let (one, other) = thread::join(rt, || looks(first, rounds), || looks(second, rounds));
    one + other
}

/// How often one thread finds the port congested in so many looks at words, or `None` where memory runs out.
pub fn of_words(rt: &impl Wait, alloc: Global, map: &PortMap, rounds: u32) -> Option<u64> {
    let (mut writer, mut readers) = pair(alloc, 1).ok()?;
    writer.publish(rt, map).ok()?;
    let reader = readers.first_mut()?;
    Some(looks(reader, rounds))
}

/// The same of four threads, added up.
pub fn of_words_by_four<R: Threads + Wait + Sync>(
    rt: &R,
    alloc: Global,
    map: &PortMap,
    rounds: u32,
) -> Option<u64> {
    let (mut writer, mut readers) = pair(alloc, 4).ok()?;
    writer.publish(rt, map).ok()?;
    let mut first = readers.pop()?;
    let mut second = readers.pop()?;
    let mut third = readers.pop()?;
    let mut fourth = readers.pop()?;
    let (one, other) = thread::join(
        rt,
        || -> u64
            ensures { result ≤ 2 * rounds }
        { by_two(rt, &mut first, &mut second, rounds) },
        || -> u64
            ensures { result ≤ 2 * rounds }
        { by_two(rt, &mut third, &mut fourth, rounds) },
    );
    Some(one + other)
}

/// The same of one thread over the two copies.
pub fn of_copies<R: Wait>(rt: &R, alloc: Global, map: &PortMap, rounds: u32) -> Option<u64> {
    let (mut writer, mut readers) = copies::pair(alloc, rt, 1).ok()?;
    writer.publish(rt, map).ok()?;
    let reader = readers.first_mut()?;
    Some(looks(reader, rounds))
}

/// The same of one thread over plain atomic words.
pub fn of_plain(alloc: Global, map: &PortMap, rounds: u32) -> Option<u64> {
    let plain = Plain::new(alloc).ok()?;
    plain.publish(map);
    let mut set = 0;
    for _ in 0..rounds {
        if plain.bit(PORT) {
            set += 1;
        }
    }
    Some(set)
}
