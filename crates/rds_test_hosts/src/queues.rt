//! What a line holds of a host's queues.
ghost use Rattle.std.specs.Prelude.{◌≡◌, IfOk};
ghost use Rattle.std.specs.Arc.{arc_value};
ghost use Rattle.rds_mail.specs.Passes.{first_getter, first_putter};

use rds_mail::{Asked, GetPass, Mail, PutPass};
use rds_model::{Datagram, Order};
use rds_wire::Memory;
use std::alloc::Global;
use std::sync::{Arc, Wait};

/// Takes orders from the queue of a route.
pub struct Orders {
    mail: Arc<Mail<Asked>>,
    get: GetPass<Asked>,
    ghost tied: { get.mail ≡ (arc_value mail).line },
}

// By hand, so that one call drops it wherever it is let go, and no function that owns one drops each field.
impl Drop for Orders {
    fn drop(self) {
        let Self {
            mail: _mail,
            get: _get,
        } = self;
    }
}

impl Orders {
    /// A new queue, the right to put there, and the getter.
    pub(crate) fn new(alloc: Global) -> Result<(Arc<Mail<Asked>>, PutPass<Asked>, Orders), Memory>
        ensures { IfOk result (λ r. r.1 ≡ first_putter (arc_value r.0).line) }
    {
        let (mail, put, get) = Mail::new(alloc)?;
        let mail = Arc::new(alloc, mail)?;
        let orders = Orders {
            mail: Arc::try_clone(&mail)?,
            get,
        };
        Ok((mail, put, orders))
    }

    /// The oldest order, if there is one.
    pub fn next(&mut self, rt: &impl Wait) -> Option<Order> {
        let asked = self.mail.get(rt, &mut self.get)?;
        Some(asked.order())
    }
}

/// Puts datagrams into a socket's mailbox.
pub struct Deliverer {
    mail: Arc<Mail<Datagram>>,
    put: PutPass<Datagram>,
    ghost tied: { put.mail ≡ (arc_value mail).line },
}

// By hand, so that one call drops it wherever it is let go, and no function that owns one drops each field.
impl Drop for Deliverer {
    fn drop(self) {
        let Self {
            mail: _mail,
            put: _put,
        } = self;
    }
}

impl Deliverer {
    /// A new mailbox, the right to get from it, and the putter.
    pub(crate) fn new(
        alloc: Global,
    ) -> Result<(Arc<Mail<Datagram>>, GetPass<Datagram>, Deliverer), Memory>
        ensures { IfOk result (λ r. r.1 ≡ first_getter (arc_value r.0).line) }
    {
        let (mail, put, get) = Mail::new(alloc)?;
        let mail = Arc::new(alloc, mail)?;
        let inbox = Deliverer {
            mail: Arc::try_clone(&mail)?,
            put,
        };
        Ok((mail, get, inbox))
    }

    /// Puts a datagram.
    pub fn put(&mut self, rt: &impl Wait, datagram: Datagram) -> Result<(), Memory> {
        if self.mail.put(rt, &mut self.put, datagram).is_err() {
            return Err(Memory);
        }
        Ok(())
    }

    /// Wakes the task that waits for a datagram.
    pub fn ring(&self, rt: &impl Wait) {
        self.mail.bell().ring(rt);
    }
}
