ghost use Rattle.std.specs.Prelude.{◌≡◌, ◌≤◌, ◌<◌, List, ℕ, Option, length, take, IfOk, OnOk, OnErr, IsErrOf};
ghost use Rattle.rds_link.specs.Streaming.{HasRisen, SourceGave, SourceGaveFront, SourceGaveAll, TellsSame, IsAtEnd};
ghost use Rattle.rds_link.specs.declared.source.ReadError.TheVariants as errors;

use crate::Failed;
use std::alloc::Global;

/// Where bytes come from.
pub trait Source {
    /// The bytes that are left, where the source tells.
    ghost left: { Self → Option (List ℕ) };

    /// How many faults there were.
    ghost faults: { Self → ℕ };

    /// Reads some bytes to the front of `buf`, which isn't empty. `Ok(0)` is the end of input.
    fn read(&mut self, buf: &mut [u8]) -> Result<usize, Failed>
        requires { 0 < length buf.old }
        ensures count { IfOk result (λ n. n ≤ length buf.old) }
        ensures bytes { IfOk result (λ n. SourceGave (left self.old) (left self.new) (take n buf.new)) }
        ensures end { result ≡ Ok 0 → IsAtEnd (left self.old) }
        ensures kept { OnErr result (TellsSame (left self.old) (left self.new)) }
        ensures failed { OnErr result (HasRisen (faults self.old) (faults self.new)) }
        ensures quiet { OnOk result (faults self.new ≡ faults self.old) }
        ensures counts { faults self.old ≤ faults self.new };
}

/// Why a source wasn't read to its end.
#[derive(Clone, Copy, Debug, PartialEq, Eq)]
pub enum ReadError {
    /// A read of the source failed.
    Failed,
    /// There is no memory for what it has.
    Memory,
}

/// How many bytes one read asks for at most.
const PIECE: usize = 65_536;

/// Reads a source to its end, or its first `most` bytes where it has more. An answer of fewer than `most` bytes is all that
/// the source had, and one of exactly `most` may not be: the source then keeps what follows.
///
/// # Errors
///
/// `Failed` where a read of the source failed, whose count of faults then rose; `Memory` where there is no memory for the
/// bytes. What was read before is lost in both cases.
pub fn read_all<S: Source>(alloc: Global, source: &mut S, most: usize) -> Result<Vec<u8>, ReadError>
    ensures bytes { IfOk result (λ v. SourceGaveFront (S.left source.old) most v.items) }
    ensures left { IfOk result (λ v. SourceGave (S.left source.old) (S.left source.new) v.items) }
    ensures end { IfOk result (λ v. length v.items < most → SourceGaveAll (S.left source.old) (S.left source.new) v.items) }
    ensures failed { IsErrOf result errors.Failed → HasRisen (S.faults source.old) (S.faults source.new) }
    ensures short { IsErrOf result errors.Memory → S.faults source.new ≡ S.faults source.old }
    ensures quiet { OnOk result (S.faults source.new ≡ S.faults source.old) }
    ensures counts { S.faults source.old ≤ S.faults source.new }
{
    let mut bytes = Vec::new(alloc);
    let mut piece = [0u8; PIECE];
    while bytes.len() < most {
        let room = PIECE.min(most - bytes.len());
        let count = match source.read(&mut piece[..room]) {
            Ok(count) => count,
            Err(_) => return Err(ReadError::Failed),
        };
        if count == 0 {
            return Ok(bytes);
        }
        if bytes.extend_from_slice(&piece[..count]).is_err() {
            return Err(ReadError::Memory);
        }
    }
    Ok(bytes)
}
