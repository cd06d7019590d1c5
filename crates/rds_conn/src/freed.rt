ghost use Rattle.std.specs.Prelude.{◌≡◌, ◌↔◌, ℕ, ◌+◌, ◌-◌, ◌<◌, ◌≤◌, ◌^◌, length, replicate, sum, slice_index, take, IfOk, IfSome, IfNone, IsNone};
ghost use Rattle.rds_wire.specs.declared.kind.TheConstants.{MAX_LENGTH as most};
ghost use Rattle.rds_conn.specs.Freeing.{with_freed, HandsOutFreed};

use rds_wire::{MAX_LENGTH, Memory};
use std::alloc::Global;
use std::marker::Model;

/// Bytes of one socket's datagrams that were acknowledged or taken back.
#[derive(Clone, Copy, Debug, PartialEq, Eq)]
pub struct Freed {
    /// The slot of the socket.
    pub slot: u16,
    /// How many, 1 to 1,048,576.
    pub bytes: u64,
}

/// For each slot the freed bytes that weren't handed out.
#[derive(Drop)]
pub(crate) struct FreedBytes {
    bytes: Vec<u64>,
    total: u64,
    // No slot below this one has any.
    first: usize,
}

impl Model for FreedBytes {
    ghost use Rattle.std.specs.Prelude.{◌≡◌, ◌≤◌, List, ℕ, length, sum, take};

    ghost Value = { List ℕ };

    ghost view = { λ f. f.bytes.items };

    ghost invariant = { λ f. (f.total ≡ sum f.bytes.items) × (length f.bytes.items ≤ 65535) × (sum (take f.first f.bytes.items) ≡ 0) };
}

impl FreedBytes {
    /// None, for slots below `slots`.
    pub(crate) fn new(alloc: Global, slots: u16) -> Result<FreedBytes, Memory>
        ensures { IfOk result (λ f. f ≡ replicate slots 0) }
    {
        Ok(FreedBytes {
            bytes: vec![in alloc; 0; usize::from(slots)]?,
            total: 0,
            first: 0,
        })
    }

    /// The bytes of a slot.
    pub(crate) fn of(&self, slot: u16) -> u64
        requires { slot < length self.now }
        ensures { result ≡ slice_index self.now slot }
    {
        self.bytes[usize::from(slot)]
    }

    /// Adds bytes of a slot, where the slot is one of these.
    pub(crate) fn add(&mut self, slot: u16, bytes: u64)
        requires { sum self.old + bytes < 2 ^ 64 }
        ensures { self.new ≡ with_freed slot bytes self.old }
    {
        let slot = usize::from(slot);
        if slot < self.bytes.len() {
            self.bytes[slot] += bytes;
            self.total += bytes;
            self.first = self.first.min(slot);
        }
    }

    /// Takes out bytes of the lowest slot that has any, at most those of one datagram.
    pub(crate) fn take(&mut self) -> Option<Freed>
        ensures none { IsNone result ↔ (sum self.old ≡ 0) }
        ensures some { IfSome result (HandsOutFreed self.old self.new) }
        ensures same { IfNone result (self.new ≡ self.old) }
    {
        if self.total == 0 {
            return None;
        }
        let slot = first_with_any(&self.bytes, self.first);
        self.first = slot;
        let bytes = self.bytes[slot].min(u64::from(MAX_LENGTH));
        self.bytes[slot] -= bytes;
        self.total -= bytes;
        Some(Freed {
            slot: slot as u16,
            bytes,
        })
    }
}

// The lowest slot that has bytes, where none below `first` has any.
fn first_with_any(bytes: &[u64], first: usize) -> usize
    requires some { 0 < sum bytes.now }
    requires none { sum (take first bytes.now) ≡ 0 }
    ensures slot { result < length bytes.now }
    ensures any { 0 < slice_index bytes.now result }
    ensures lowest { sum (take result bytes.now) ≡ 0 }
{
    for slot in first..bytes.len() {
        if bytes[slot] > 0 {
            return slot;
        }
    }
    unreachable!()
}
