//! Maps that one thread writes and another reads.
ghost use Rattle.std.specs.Prelude.{◌≡◌, []};

use rds_cong::PortMap;
use rds_fmap::{MapReader, MapWriter, Reader, Seen, Writer, close, copies, pair};
use rds_wire::Memory;
use std::alloc::Global;
use std::process::Abort;
use std::sync::Wait;
use std::test::Fail;
use std::thread;
use std::thread::Threads;

// What is seen of ports 4001 and 4002 before a publication of 4001 alone, after it, and after one of the clear map.
fn map_versions<W: MapWriter, R: MapReader>(
    rt: &impl Wait,
    writer: &mut W,
    reader: &mut R,
    map: &mut PortMap,
) -> Result<[Seen; 4], Memory>
    requires { W.published writer.old ≡ [] }
    ensures writer { W.pair writer.new ≡ W.pair writer.old }
    ensures reader { R.pair reader.new ≡ R.pair reader.old }
{
    let first = reader.bit(4001);
    map.set(4001);
    writer.publish(rt, map)?;
    let set = reader.bit(4001);
    let other = reader.bit(4002);
    map.clear(4001);
    writer.publish(rt, map)?;
    Ok([first, set, other, reader.bit(4001)])
}

// What `map_versions` finds with a map of its own.
fn versions<W: MapWriter, R: MapReader>(
    rt: &impl Wait,
    alloc: Global,
    writer: &mut W,
    reader: &mut R,
) -> Result<[Seen; 4], Memory>
    requires { W.published writer.old ≡ [] }
    ensures writer { W.pair writer.new ≡ W.pair writer.old }
    ensures reader { R.pair reader.new ≡ R.pair reader.old }
{
    let mut map = PortMap::new(alloc)?;
    map_versions(rt, writer, reader, &mut map)
}

fn seen(version: u64, set: bool) -> Seen {
    Seen { version, set }
}

// What `map_versions` finds.
fn expected() -> [Seen; 4] {
    [
        seen(0, false),
        seen(1, true),
        seen(1, false),
        seen(2, false),
    ]
}

// What `map_versions` found, and what another reader found of port 65535 after it.
fn assert_found(rt: &impl Abort, found: [Seen; 4], last: Seen) {
    assert_eq!(rt; found, expected());
    assert_eq!(rt; last, seen(2, false));
}

#[test]
fn bits_of_words_have_versions(rt: HostRuntime) -> Result<(), Fail> {
    let (mut writer, mut readers) = pair(rt.alloc(), 2)?;
    let mut reader = readers.pop().unwrap();
    let found = versions(&rt, rt.alloc(), &mut writer, &mut reader)?;
    let mut second = readers.pop().unwrap();
    assert_found(&rt, found, second.bit(65535));
    close(&mut writer, reader);
    close(&mut writer, second);
    Ok(())
}

#[test]
fn bits_of_copies_have_versions(rt: HostRuntime) -> Result<(), Fail> {
    let (mut writer, mut readers) = copies::pair(rt.alloc(), &rt, 2)?;
    let mut reader = readers.pop().unwrap();
    let found = versions(&rt, rt.alloc(), &mut writer, &mut reader)?;
    let mut second = readers.pop().unwrap();
    assert_found(&rt, found, second.bit(65535));
    Ok(())
}

// Publishes the map twice.
fn publishes(rt: &impl Wait, mut writer: Writer, map: &PortMap) -> Writer
    requires { writer.published ≡ [] }
    ensures { result.pair ≡ writer.pair }
{
    let _ = writer.publish(rt, map);
    let _ = writer.publish(rt, map);
    writer
}

// Looks the last port up, and answers how often it was set.
fn looks(mut reader: Reader) -> (Reader, u64)
    ensures { result.0.pair ≡ reader.pair }
{
    let mut set = 0;
    for _ in 0..1000u32 {
        if reader.bit(65535).set {
            set += 1;
        }
    }
    (reader, set)
}

// One thread publishes and the other looks, and then the last look sees the second version.
fn publish_and_look<R: Abort + Threads + Wait + Sync>(
    rt: &R,
    map: &PortMap,
    writer: Writer,
    reader: Reader,
)
    requires published { writer.published ≡ [] }
    requires pair { reader.pair ≡ writer.pair }
{
    let (mut writer, (mut reader, set)) = thread::join(
        rt,
        move || publishes(rt, writer, map),
        move || looks(reader),
    );
    assert!(rt; set <= 1000);
    assert_eq!(rt; reader.bit(65535), seen(2, true));
    close(&mut writer, reader);
}

#[test]
fn one_thread_publishes_and_one_looks(rt: HostRuntime) -> Result<(), Fail> {
    let mut map = PortMap::new(rt.alloc())?;
    map.set(65535);
    let (writer, mut readers) = pair(rt.alloc(), 1)?;
    let reader = readers.pop().unwrap();
    publish_and_look(&rt, &map, writer, reader);
    Ok(())
}
