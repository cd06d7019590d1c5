ghost use Rattle.std.specs.Prelude.{◌≡◌, IsTrue, ◌↔◌};
ghost use Rattle.rds_wire.specs.Kinds.{carries as carries_flag, checked, kind_of as kind_of_header};

use crate::sum::computed;
use crate::{CONG_BITMAP, Header, generation};

/// How many bytes a congestion map has: one bit for each port.
pub const MAP_LENGTH: u32 = 8192;

/// The most bytes of payload that a frame may have.
pub const MAX_LENGTH: u32 = 1_048_576;

/// What a header says that its frame is.
#[derive(Clone, Copy, Debug, PartialEq, Eq)]
pub enum Kind {
    /// A datagram.
    Data,
    /// An acknowledgement without data.
    Ack,
    /// A congestion map of 8,192 bytes.
    Map,
    /// A congestion map of any other length, which is read and ignored.
    OddMap,
}

/// Why a header is refused.
#[derive(Clone, Copy, Debug, PartialEq, Eq)]
pub enum Malformed {
    /// The checksum is neither 0 nor the computed one.
    Sum { found: u16, computed: u16 },
    /// More than 1,048,576 bytes of payload are announced.
    Length { len: u32 },
    /// A datagram with a number outside 1 to 2^63 - 1.
    Sequence { number: u64 },
    /// An acknowledgement above the highest number that the reader has ever pulled.
    Ack { ack: u64, highest: u64 },
    /// A generation below the greatest one that the reader has read.
    Generation { found: u32, known: u32 },
}

/// What a header says that its frame is.
pub fn kind_of(h: &Header) -> Kind
    ensures { result ≡ kind_of_header h.now }
{
    if h.flags & CONG_BITMAP != 0 {
        if h.len == MAP_LENGTH {
            Kind::Map
        } else {
            Kind::OddMap
        }
    } else if h.sequence == 0 && h.len == 0 && h.dport == 0 {
        Kind::Ack
    } else {
        Kind::Data
    }
}

/// The kind of a header, or the first thing that is wrong with it, where `highest` is the highest number that
/// the reader has ever pulled, and `known` the greatest generation that it has ever read, or 0.
///
/// # Errors
///
/// The first thing that is wrong with it, in the order of `Malformed`.
#[tactic(auto, unfolding(crate::specs::Kinds::cause))]
pub fn check(h: &Header, highest: u64, known: u32) -> Result<Kind, Malformed>
    ensures { result ≡ checked h.now highest known }
{
    let kind = kind_of(h);
    if h.csum != 0 && h.csum != computed(*h) {
        return Err(Malformed::Sum {
            found: h.csum,
            computed: computed(*h),
        });
    }
    if h.len > MAX_LENGTH {
        return Err(Malformed::Length { len: h.len });
    }
    if kind == Kind::Data && (h.sequence == 0 || h.sequence >= 1 << 63) {
        return Err(Malformed::Sequence { number: h.sequence });
    }
    if h.ack > highest {
        return Err(Malformed::Ack {
            ack: h.ack,
            highest,
        });
    }
    let found = generation(h);
    if found < known {
        return Err(Malformed::Generation { found, known });
    }
    Ok(kind)
}
