//! Threads that are still to be joined.
ghost use Rattle.std.specs.Prelude.{◌≡◌, ◌+◌, OnOk, OnErr, All};
ghost use Rattle.rds_tcp.specs.Threads.{HaveEnded, unjoined};

use rds_link::WireError;
use std::alloc::Global;
use std::snapshot::Snapshot;
use std::thread;
use std::thread::{Promise, PromisedHandle, Threads};

/// What a thread promises of its end. Nothing but its join tells that it kept that.
#[derive(Drop)]
pub(crate) struct Ends(Snapshot<bool>);

impl Promise<()> for Ends {
    ghost use Rattle.std.specs.Prelude.{◌≡◌, true};

    ghost kept_by = { λ p _. p.0.value ≡ true };
}

/// The threads that were started and are still to be joined. Only `join` lets them go.
pub(crate) struct Handles {
    all: Vec<PromisedHandle<(), Ends>>,
}

impl Handles {
    /// No threads.
    pub(crate) fn new(alloc: Global) -> Handles
        ensures { unjoined result ≡ 0 }
    {
        Handles {
            all: Vec::new(alloc),
        }
    }

    /// Starts a thread.
    ///
    /// # Errors
    ///
    /// Where there is no memory, or the thread is refused, which is a fault, since the refusal doesn't tell its cause.
    pub(crate) fn start<R: Threads, F: FnOnce() + Send + Drop + 'static>(
        &mut self,
        rt: &R,
        run: F,
    ) -> Result<(), WireError>
        requires { F.pre run }
        ensures started { OnOk result (unjoined self.new ≡ unjoined self.old + 1) }
        ensures refused { OnErr result (unjoined self.new ≡ unjoined self.old) }
    {
        if self.all.reserve(1).is_err() {
            return Err(WireError::Memory);
        }
        let Ok(handle) = thread::spawn_with(rt, Ends(Snapshot::of(&true)), run) else {
            return Err(WireError::Fault);
        };
        self.all.push_reserved(handle);
        Ok(())
    }

    /// Returns once all these threads have ended.
    pub(crate) fn join<R: Threads>(self, rt: &R)
        ensures { HaveEnded self }
    {
        let Handles { all } = self;
        for handle in all {
            handle.join(rt);
        }
    }
}
