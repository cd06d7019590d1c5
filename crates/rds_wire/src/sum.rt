ghost use Rattle.std.specs.Prelude.{◌≡◌, ℕ, ◌+◌, ◌/◌, ◌%◌, ◌<◌, ◌≤◌, ◌^◌, ◌↔◌, ◌⊎◌, IsTrue};
ghost use Rattle.rds_wire.specs.Bytes.{computed as computed_sum, folded, header_bytes, sealed as with_sum, word_sum};

use crate::Header;
use byteorder::{BigEndian, ByteOrder};

/// The header with its checksum in place of the one that it had.
pub fn sealed(h: Header) -> Header
    ensures { result ≡ with_sum h }
{
    Header {
        csum: computed(h),
        ..h
    }
}

/// Whether the checksum is the computed one, or 0, which says that the writer made none.
pub fn sum_ok(h: &Header) -> bool
    ensures { IsTrue result ↔ ((h.now.csum ≡ 0) ⊎ (h.now.csum ≡ computed_sum h.now)) }
{
    h.csum == 0 || h.csum == computed(*h)
}

pub(crate) fn computed(h: Header) -> u16
    ensures { result ≡ computed_sum h }
{
    let carried = carry(carry(carry(field_sum(h))));
    65535 - carried as u16
}

// A sum of the fields, the checksum left out, that folds to what the header's words fold to.
fn field_sum(h: Header) -> u64
    ensures small { result < 2 ^ 36 }
    ensures sum { folded result ≡ folded (word_sum (header_bytes (record h { csum = 0 }))) }
{
    halves(h.sequence)
        + halves(h.ack)
        + u64::from(h.len)
        + u64::from(h.sport)
        + u64::from(h.dport)
        + 256 * u64::from(h.flags)
        + u64::from(h.credit)
        + u64::from(BigEndian::read_u32(&h.padding))
        + halves(BigEndian::read_u64(&h.ext[..8]))
        + halves(BigEndian::read_u64(&h.ext[8..]))
}

fn halves(n: u64) -> u64
    ensures { result ≡ n / 2 ^ 32 + n % 2 ^ 32 }
{
    (n >> 32) + n % (1 << 32)
}

// The carries above 16 bits, added at the low end.
fn carry(sum: u64) -> u64
    ensures { result ≡ sum / 2 ^ 16 + sum % 2 ^ 16 }
{
    (sum >> 16) + sum % (1 << 16)
}
