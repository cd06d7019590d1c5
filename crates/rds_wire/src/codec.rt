ghost use Rattle.std.specs.Prelude.{◌≡◌, ℕ, ◌≤◌, List, take, drop, length};
ghost use Rattle.byteorder.specs.Endian.{big_bytes};
ghost use Rattle.rds_wire.specs.Bytes.{header_bytes, IsHeader};

use crate::Header;
use byteorder::{BigEndian, ByteOrder};

/// The 48 bytes of a header.
pub fn encode(h: &Header) -> [u8; 48]
    ensures { result ≡ header_bytes h.now }
{
    encoded(*h)
}

// By value, since then the ranges of the fields are known.
#[tactic(auto, unfolding(crate::specs::Bytes::header_bytes))]
fn encoded(h: Header) -> [u8; 48]
    ensures { result ≡ header_bytes h }
{
    let mut bytes = [0; 48];
    BigEndian::write_u64(&mut bytes[0..8], h.sequence);
    BigEndian::write_u64(&mut bytes[8..16], h.ack);
    BigEndian::write_u32(&mut bytes[16..20], h.len);
    BigEndian::write_u16(&mut bytes[20..22], h.sport);
    BigEndian::write_u16(&mut bytes[22..24], h.dport);
    bytes[24] = h.flags;
    bytes[25] = h.credit;
    BigEndian::write_u16(&mut bytes[30..32], h.csum);
    bytes[32..48].copy_from_slice(&h.ext);
    bytes[26..30].copy_from_slice(&h.padding);
    bytes
}

/// The header that has these bytes.
pub fn decode(b: &[u8; 48]) -> Header
    ensures bytes { header_bytes result ≡ b.now }
    ensures header { IsHeader result }
{
    let mut padding = [0; 4];
    padding.copy_from_slice(&b[26..30]);
    let mut ext = [0; 16];
    ext.copy_from_slice(&b[32..48]);
    Header {
        sequence: BigEndian::read_u64(&b[0..8]),
        ack: BigEndian::read_u64(&b[8..16]),
        len: BigEndian::read_u32(&b[16..20]),
        sport: BigEndian::read_u16(&b[20..22]),
        dport: BigEndian::read_u16(&b[22..24]),
        flags: b[24],
        credit: b[25],
        padding,
        csum: BigEndian::read_u16(&b[30..32]),
        ext,
    }
}
