ghost use Rattle.std.specs.Prelude.{◌≡◌, ◌+◌, ◌-◌, ◌<◌, ◌≤◌, ◌^◌, length, replicate, slice_index, slice_set, IfOk};

use rds_wire::Memory;
use std::alloc::Global;
use std::marker::Model;

/// For each slot the bytes of its datagrams that are alive, or freed and not handed out yet.
#[derive(Drop)]
pub(crate) struct Charges {
    bytes: Vec<u64>,
}

impl Model for Charges {
    ghost use Rattle.std.specs.Prelude.{List, ℕ};

    ghost Value = { List ℕ };

    ghost view = { λ c. c.bytes.items };
}

impl Charges {
    /// None, for slots below `slots`.
    pub(crate) fn new(alloc: Global, slots: u16) -> Result<Charges, Memory>
        ensures { IfOk result (λ c. c ≡ replicate slots 0) }
    {
        Ok(Charges {
            bytes: vec![in alloc; 0; usize::from(slots)]?,
        })
    }

    /// The bytes of a slot.
    pub(crate) fn of(&self, slot: u16) -> u64
        requires { slot < length self.now }
        ensures { result ≡ slice_index self.now slot }
    {
        self.bytes[usize::from(slot)]
    }

    /// A datagram of a slot with so many bytes was accepted.
    pub(crate) fn add(&mut self, slot: u16, bytes: u64)
        requires within { slot < length self.old }
        requires fits { slice_index self.old slot + bytes < 2 ^ 64 }
        ensures { self.new ≡ slice_set self.old slot (slice_index self.old slot + bytes) }
    {
        self.bytes[usize::from(slot)] += bytes;
    }

    /// Freed bytes of a slot were handed out.
    pub(crate) fn take(&mut self, slot: u16, bytes: u64)
        requires within { slot < length self.old }
        requires enough { bytes ≤ slice_index self.old slot }
        ensures { self.new ≡ slice_set self.old slot (slice_index self.old slot - bytes) }
    {
        self.bytes[usize::from(slot)] -= bytes;
    }
}
