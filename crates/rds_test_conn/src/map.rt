//! The map of ports.
ghost use Rattle.std.specs.Prelude.{◌<◌};

use rds_cong::{MAP_BYTES, PortMap, hysteresis};
use std::alloc::Global;
use std::test::Fail;

// Whether this byte is at this place, and zero everywhere else.
fn is_alone(bytes: &mut [u8; MAP_BYTES], place: usize, byte: u8) -> bool
    requires { place < MAP_BYTES }
{
    let found = bytes[place];
    bytes[place] = 0;
    let alone = bytes.iter().all(|b| *b == 0);
    bytes[place] = found;
    found == byte && alone
}

// Whether a map has a port, which is its only one, and loses it.
fn is_cleared(alloc: Global, map: &mut PortMap, port: u16) -> bool {
    let Ok(none) = PortMap::new(alloc) else {
        return false;
    };
    let had = map.has(port) && !map.same(&none);
    map.clear(port);
    had && !map.has(port) && map.same(&none)
}

// Whether a map of one port comes back from its bytes.
fn comes_back(alloc: Global, map: &PortMap, bytes: &[u8; MAP_BYTES], port: u16) -> bool {
    let Ok(mut back) = PortMap::new(alloc) else {
        return false;
    };
    back.of_bytes(bytes);
    back.same(map) && is_cleared(alloc, &mut back, port)
}

// Whether a port stands alone at this place of the bytes, and comes back from there.
fn stands_at(alloc: Global, port: u16, place: usize, byte: u8) -> bool
    requires { place < MAP_BYTES }
{
    let Ok(mut map) = PortMap::new(alloc) else {
        return false;
    };
    map.set(port);
    let mut bytes = [0; MAP_BYTES];
    map.bytes(&mut bytes);
    is_alone(&mut bytes, place, byte) && comes_back(alloc, &map, &bytes, port)
}

#[test]
fn ports_stand_at_their_bits(rt: HostRuntime) {
    let alloc = rt.alloc();
    assert!(rt; stands_at(alloc, 0, 0, 1) && stands_at(alloc, 63, 7, 128));
    assert!(rt; stands_at(alloc, 64, 8, 1) && stands_at(alloc, 4001, 500, 2));
    assert!(rt; stands_at(alloc, 32767, 4095, 128) && stands_at(alloc, 32768, 4096, 1));
    assert!(rt; stands_at(alloc, 65535, 8191, 128));
}

// Whether two ports stand in their words, the second of which is put as a word.
fn has_words(map: &mut PortMap) -> bool {
    map.set(4001);
    let alone = map.word(62) == 1 << 33 && map.word(61) == 0;
    map.put_word(1023, 1 << 63);
    alone && map.has(65535) && map.has(4001) && !map.has(65534)
}

// Whether a copy of the map of these two ports is the same, until it loses one.
fn is_copied(alloc: Global, map: &PortMap) -> bool {
    let Ok(mut copy) = PortMap::new(alloc) else {
        return false;
    };
    copy.copy_from(map);
    let same = copy.same(map);
    copy.clear(4001);
    same && copy.has(65535) && !copy.has(4001) && !copy.same(map)
}

#[test]
fn words_have_64_ports(rt: HostRuntime) -> Result<(), Fail> {
    let mut map = PortMap::new(rt.alloc())?;
    assert!(rt; has_words(&mut map) && is_copied(rt.alloc(), &map));
    Ok(())
}

#[test]
fn congestion_comes_above_the_limit_and_goes_below_half(rt: HostRuntime) {
    assert!(rt; !hysteresis(false, 65536, 65536) && hysteresis(false, 65537, 65536));
    assert!(rt; hysteresis(true, 65536, 65536) && hysteresis(true, 32768, 65536));
    assert!(rt; !hysteresis(true, 32767, 65536) && !hysteresis(false, 40000, 65536));
    assert!(rt; hysteresis(true, 1, 3) && !hysteresis(true, 0, 3));
    assert!(rt; hysteresis(true, 1, 2) && !hysteresis(true, 0, 2) && hysteresis(false, 3, 2));
}
