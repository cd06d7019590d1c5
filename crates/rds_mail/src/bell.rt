ghost use Rattle.std.specs.Prelude.{OnOk, OnErr, None};
ghost use Rattle.futures.specs.Slot.{IsLeftIn};
ghost use Rattle.futures.specs.Task.{IsArmed, Hears, Keeps};

use futures::task::{Context, Source, Waker};
use rds_wire::Memory;
use std::marker::Model;
use std::sync::{Mutex, Wait};

/// Wakes one task that waits. Contracts see the name of its source.
#[derive(Drop)]
pub struct Bell {
    source: Source,
    slot: Mutex<Option<Waker>>,
}

impl Model for Bell {
    ghost use Rattle.std.specs.Prelude.{ℕ};

    ghost Value = { ℕ };

    ghost view = { λ b. b.source.id };
}

impl Bell {
    /// A bell at which no task waits.
    pub fn new() -> Bell {
        Bell {
            source: Source::new(),
            slot: Mutex::new(None),
        }
    }

    /// Leaves the task's waker in the bell's slot, where another task's waker that stood there wakes it.
    ///
    /// # Errors
    ///
    /// Where no waker could be made. The slot is then empty.
    pub fn register<R: Wait>(&self, rt: &R, cx: &mut Context<'_>) -> Result<(), Memory>
        ensures armed { OnOk result (IsArmed cx.new) }
        ensures heard { OnOk result (Hears cx.new self.now) }
        ensures memory { OnErr result (IsLeftIn cx.old cx.new None) }
        ensures kept { Keeps cx.old cx.new }
    {
        let mut slot = self.slot.lock(rt);
        let _pending = cx.register::<()>(&self.source, &mut slot);
        if slot.is_none() {
            return Err(Memory);
        }
        Ok(())
    }

    /// Wakes the task that waits, if there is one. A waker wakes its task when it is dropped.
    pub fn ring<R: Wait>(&self, rt: &R) {
        let waker = self.slot.lock(rt).take();
        drop(waker);
    }
}
