ghost use Rattle.std.specs.Prelude.{◌≡◌, ℕ, ◌+◌, ◌-◌, ◌*◌, ◌<◌, ◌≤◌, ◌^◌, ◌∷◌, ◌++◌, length, drop, replicate, take, IfSome, IfNone};
ghost use Rattle.byteorder.specs.Endian.{big_bytes};
ghost use Rattle.rds_wire.specs.declared.ext.Ext.{Ext};
ghost use Rattle.rds_wire.specs.Extensions.{BeginsWith, ext_bytes, StandsAt};

use byteorder::{BigEndian, ByteOrder};

/// An extension of a header. The types, their numbers and their sizes are this project's profile after rds.h.
#[derive(Clone, Copy, Debug, PartialEq, Eq)]
pub enum Ext {
    /// The protocol version, of type 1.
    Version(u32),
    /// An RDMA key, of type 2.
    RdmaKey(u32),
    /// An RDMA destination, of type 3.
    RdmaDest { key: u32, offset: u32 },
    /// The number of paths, of type 5.
    Paths(u16),
    /// The generation number of the sender, of type 6.
    Generation(u32),
}

/// The extension at a place of a header's extension area, and the place after it. A byte of 0, a byte of no known
/// type, and data that would pass the area end the list.
pub fn next_ext(area: &[u8; 16], pos: usize) -> Option<(Ext, usize)>
    ensures found { IfSome result (λ found. StandsAt area.now pos found.0) }
    ensures after { IfSome result (λ found. found.1 ≡ pos + length (ext_bytes found.0)) }
    ensures none { IfNone result ((e : Ext) → StandsAt area.now pos e → ⊥) }
{
    let ext = first_ext(area.get(pos..)?)?;
    Some((ext, pos + ext_len(ext)))
}

/// An extension area with this extension and zeros after it.
pub fn put_ext(e: &Ext) -> [u8; 16]
    ensures { result ≡ ext_bytes e.now ++ replicate (16 - length (ext_bytes e.now)) 0 }
{
    let mut area = [0; 16];
    match *e {
        Ext::Version(version) => put_number(&mut area, 1, version),
        Ext::RdmaKey(key) => put_number(&mut area, 2, key),
        Ext::RdmaDest { key, offset } => {
            put_number(&mut area, 3, key);
            BigEndian::write_u32(&mut area[5..9], offset);
        }
        Ext::Paths(paths) => {
            area[0] = 5;
            BigEndian::write_u16(&mut area[1..3], paths);
        }
        Ext::Generation(generation) => put_number(&mut area, 6, generation),
    }
    area
}

fn put_number(area: &mut [u8; 16], kind: u8, number: u32)
    ensures { area.new ≡ (kind ∷ big_bytes 4 number) ++ drop 5 area.old }
{
    area[0] = kind;
    BigEndian::write_u32(&mut area[1..5], number);
}

// The extension that the bytes begin with.
fn first_ext(bytes: &[u8]) -> Option<Ext>
    ensures found { IfSome result (BeginsWith bytes.now) }
    ensures none { IfNone result ((e : Ext) → BeginsWith bytes.now e → ⊥) }
{
    let (kind, rest) = bytes.split_first()?;
    match *kind {
        1 => Some(Ext::Version(number(rest)?)),
        2 => Some(Ext::RdmaKey(number(rest)?)),
        3 => Some(Ext::RdmaDest {
            key: number(rest)?,
            offset: number(rest.get(4..)?)?,
        }),
        5 => Some(Ext::Paths(short(rest)?)),
        6 => Some(Ext::Generation(number(rest)?)),
        _ => None,
    }
}

fn ext_len(e: Ext) -> usize
    ensures { result ≡ length (ext_bytes e) }
{
    match e {
        Ext::Version(_) | Ext::RdmaKey(_) | Ext::Generation(_) => 5,
        Ext::RdmaDest { .. } => 9,
        Ext::Paths(_) => 3,
    }
}

fn number(bytes: &[u8]) -> Option<u32>
    ensures found { IfSome result (λ n. (4 ≤ length bytes.now) × (take 4 bytes.now ≡ big_bytes 4 n)) }
    ensures none { IfNone result (length bytes.now < 4) }
{
    if bytes.len() < 4 {
        return None;
    }
    Some(BigEndian::read_u32(bytes))
}

fn short(bytes: &[u8]) -> Option<u16>
    ensures found { IfSome result (λ n. (2 ≤ length bytes.now) × (take 2 bytes.now ≡ big_bytes 2 n)) }
    ensures none { IfNone result (length bytes.now < 2) }
{
    if bytes.len() < 2 {
        return None;
    }
    Some(BigEndian::read_u16(bytes))
}
