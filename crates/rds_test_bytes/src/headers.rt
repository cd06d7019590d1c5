ghost use Rattle.std.specs.Prelude.{◌≤◌, length};

use captured::CAPTURED;
use rds_wire::*;
use sealed_elsewhere::SEALED;
use std::alloc::{AllocError, Global};
use std::process::Abort;
use std::test::Fail;

mod captured;
mod sealed_elsewhere;

// The header and the bytes of a row of a table.
fn header_of(row: &[u64; 13]) -> Result<Header, Fail> {
    Ok(Header {
        sequence: row[0],
        ack: row[1],
        len: u32::try_from(row[2])?,
        sport: u16::try_from(row[3])?,
        dport: u16::try_from(row[4])?,
        flags: u8::try_from(row[5])?,
        credit: 0,
        padding: [0; 4],
        csum: 0,
        ext: [0; 16],
    })
}

fn bytes_of(row: &[u64; 13]) -> [u8; 48] {
    let mut bytes = [0; 48];
    for i in 0..6 {
        bytes[8 * i..8 * i + 8].copy_from_slice(&row[7 + i].to_be_bytes());
    }
    bytes
}

// The header of a row, with its extension and its checksum.
fn sealed_of(row: &[u64; 13]) -> Result<Header, Fail> {
    let mut header = header_of(row)?;
    if row[6] > 0 {
        header.ext = put_ext(&Ext::Generation(u32::try_from(row[6])?));
    }
    Ok(sealed(header))
}

// A header is written as these bytes, and read from them.
fn stands_for(rt: &impl Abort, header: &Header, bytes: &[u8; 48]) {
    assert_eq!(rt; encode(header), *bytes);
    assert_eq!(rt; decode(bytes), *header);
}

#[test]
fn headers_sealed_elsewhere(rt: HostRuntime) -> Result<(), Fail> {
    for row in &SEALED {
        let header = sealed_of(row)?;
        stands_for(&rt, &header, &bytes_of(row));
        assert!(rt; sum_ok(&header));
    }
    Ok(())
}

// The extension that a row of a Linux kernel tells, and its end.
fn paths_of(row: &[u64; 13]) -> Result<Option<(Ext, usize)>, Fail> {
    if row[6] > 0 {
        Ok(Some((Ext::Paths(u16::try_from(row[6])?), 3)))
    } else {
        Ok(None)
    }
}

// The header of a row, with its extension.
fn header_with(row: &[u64; 13], ext: &Option<(Ext, usize)>) -> Result<Header, Fail> {
    let mut header = header_of(row)?;
    if let Some((paths, _)) = ext {
        header.ext = put_ext(paths);
    }
    Ok(header)
}

fn is_of_a_kernel(rt: &impl Abort, row: &[u64; 13]) -> Result<(), Fail> {
    let ext = paths_of(row)?;
    let header = header_with(row, &ext)?;
    stands_for(rt, &header, &bytes_of(row));
    assert_eq!(rt; next_ext(&header.ext, 0), ext);
    let kind = if row[5] == 1 { Kind::Map } else { Kind::Data };
    assert_eq!(rt; check(&header, 0, 0), Ok(kind));
    assert_eq!(rt; generation(&header), 0);
    Ok(())
}

#[test]
fn headers_of_a_linux_kernel(rt: HostRuntime) -> Result<(), Fail> {
    for row in &CAPTURED {
        is_of_a_kernel(&rt, row)?;
    }
    Ok(())
}

// A header with these fields, and no checksum.
fn numbered(sequence: u64, ack: u64, len: u32, dport: u16, flags: u8) -> Header {
    Header {
        sequence,
        ack,
        len,
        sport: 4000,
        dport,
        flags,
        credit: 0,
        padding: [0; 4],
        csum: 0,
        ext: [0; 16],
    }
}

#[test]
fn checksums_worked_by_hand(rt: HostRuntime) {
    let hello = sealed(numbered(1, 0, 5, 4001, ACK_REQUIRED));
    assert_eq!(rt; hello.csum, 0xffff - 0x2147);
    assert_eq!(rt; sealed(decode(&[0; 48])).csum, 0xffff);
    let map = Header {
        sport: 0,
        ..numbered(0, 1, MAP_LENGTH, 0, CONG_BITMAP)
    };
    assert_eq!(rt; sealed(map).csum, 0xdefe);
    let wrong = Header {
        csum: 0xdeb9,
        ..hello
    };
    let sum = Malformed::Sum {
        found: 0xdeb9,
        computed: 0xdeb8,
    };
    assert_eq!(rt; check(&wrong, 0, 0), Err(sum));
}

#[test]
fn faults_in_their_order(rt: HostRuntime) {
    let long = 1_048_577;
    let past = 1 << 63;
    let odd = CONG_BITMAP | RETRANSMITTED;
    let early = Malformed::Ack { ack: 9, highest: 8 };
    for (header, wanted) in [
        (numbered(1, 8, 5, 4001, 0), Ok(Kind::Data)),
        (
            numbered(0, 9, long, 4001, 0),
            Err(Malformed::Length { len: long }),
        ),
        (
            numbered(0, 9, 5, 4001, 0),
            Err(Malformed::Sequence { number: 0 }),
        ),
        (
            numbered(past, 0, 5, 4001, 0),
            Err(Malformed::Sequence { number: past }),
        ),
        (numbered(1, 9, 5, 4001, 0), Err(early)),
        (numbered(past, 0, 5, 4001, odd), Ok(Kind::OddMap)),
        (numbered(0, 0, 0, 0, ACK_REQUIRED), Ok(Kind::Ack)),
    ] {
        assert_eq!(rt; check(&header, 8, 0), wanted);
    }
}

// A datagram with these extension bytes at the front of its area, which acknowledges this number.
fn extended(ack: u64, bytes: &[u8]) -> Header
    requires { length bytes.now ≤ 16 }
{
    let mut header = numbered(1, ack, 5, 4001, 0);
    header.ext[..bytes.len()].copy_from_slice(bytes);
    header
}

// The extension bytes have this generation number.
fn gives(rt: &impl Abort, bytes: &[u8], wanted: u32)
    requires { length bytes.now ≤ 16 }
{
    assert_eq!(rt; generation(&extended(0, bytes)), wanted);
}

#[test]
fn generations(rt: HostRuntime) {
    gives(&rt, &[], 0);
    gives(&rt, &[6, 0, 0, 0, 9], 9);
    gives(&rt, &[6, 255, 255, 255, 255], u32::MAX);
    gives(&rt, &[6, 0, 0, 1, 2, 6, 0, 0, 0, 9], 258);
    gives(&rt, &[1, 0, 3, 0, 1, 6, 0, 0, 0, 9], 9);
    gives(&rt, &[5, 0, 8, 6, 0, 0, 0, 9], 9);
    gives(&rt, &[3, 6, 0, 0, 0, 7, 6, 0, 0, 6, 0, 0, 0, 9], 9);
    gives(&rt, &[2, 6, 6, 6, 6, 5, 6, 6, 6, 0, 0, 0, 9], 9);
}

#[test]
fn no_generation(rt: HostRuntime) {
    gives(&rt, &[0, 6, 0, 0, 0, 9], 0);
    gives(&rt, &[4, 6, 0, 0, 0, 9], 0);
    gives(&rt, &[7, 6, 0, 0, 0, 9], 0);
    gives(&rt, &[3, 0, 0, 0, 7, 0, 0, 1, 0, 5, 0, 1, 6, 0, 0, 9], 0);
    gives(&rt, &[5, 0, 8, 3, 0, 0, 0, 7, 0, 0, 1, 0, 6, 0, 0, 9], 0);
}

// The cause that is found where generation 3 was read before.
fn refuses(rt: &impl Abort, header: &Header, fault: Malformed) {
    assert_eq!(rt; check(header, 8, 3), Err(fault));
}

#[test]
fn earlier_generations(rt: HostRuntime) {
    let second = extended(8, &[6, 0, 0, 0, 2]);
    refuses(&rt, &second, Malformed::Generation { found: 2, known: 3 });
    let none = extended(8, &[]);
    refuses(&rt, &none, Malformed::Generation { found: 0, known: 3 });
    let early = extended(9, &[6, 0, 0, 0, 2]);
    refuses(&rt, &early, Malformed::Ack { ack: 9, highest: 8 });
    let third = extended(8, &[6, 0, 0, 0, 3]);
    assert_eq!(rt; check(&third, 8, 3), Ok(Kind::Data));
    assert_eq!(rt; check(&none, 8, 0), Ok(Kind::Data));
}

// Two extensions one after the other, the second at byte 5, and behind them one whose data would pass the area.
fn area() -> [u8; 16] {
    [6, 0, 0, 0, 9, 3, 0, 0, 0, 7, 0, 0, 1, 0, 5, 2]
}

// The first of the two extensions, and none behind it.
fn has_one(rt: &impl Abort) {
    let mut area = [0; 16];
    area[..5].copy_from_slice(&[6, 0, 0, 0, 9]);
    assert_eq!(rt; next_ext(&area, 0), Some((Ext::Generation(9), 5)));
    assert_eq!(rt; next_ext(&area, 5), None);
}

#[test]
fn extensions_one_after_another(rt: HostRuntime) {
    has_one(&rt);
    let area = area();
    let dest = Ext::RdmaDest {
        key: 7,
        offset: 256,
    };
    assert_eq!(rt; next_ext(&area, 5), Some((dest, 14)));
    assert_eq!(rt; next_ext(&area, 14), None, "its data would pass the area");
    assert_eq!(rt; put_ext(&dest)[..9], area[5..14]);
}

// Another owner of a payload whose first owner is dropped.
fn shared(alloc: Global) -> Result<Payload, Memory> {
    let payload = Payload::copy_of(alloc, b"hello")?;
    payload.share()
}

// A payload that takes the bytes.
fn own(rt: &impl Abort, alloc: Global) -> Result<Payload, AllocError> {
    let bytes = b"hello".to_vec(alloc)?;
    Ok(Payload::from_vec(bytes).expect(rt, "ample memory"))
}

fn are_hello(rt: &impl Abort, shared: &Payload, own: &Payload) {
    assert_eq!(rt; shared.as_slice(), b"hello".as_slice());
    assert_eq!(rt; shared.len(), 5);
    assert_eq!(rt; own.as_slice(), shared.as_slice());
}

// Whether a payload of no bytes is empty.
fn none_is_empty(alloc: Global) -> Result<bool, Memory> {
    let none = Payload::copy_of(alloc, b"")?;
    Ok(none.is_empty())
}

#[test]
fn payloads(rt: HostRuntime) -> Result<(), Fail> {
    assert!(rt; none_is_empty(rt.alloc())?);
    let shared = shared(rt.alloc())?;
    let own = own(&rt, rt.alloc())?;
    are_hello(&rt, &shared, &own);
    Ok(())
}
