//! The mailbox, and the steps of its putters and of its getter.
ghost use Rattle.std.specs.Prelude.{◌≡◌, IfOk, IfErr, OnOk, IfSome, IfNone};
ghost use Rattle.rds_mail.specs.Passes.{first_putter, first_getter, after_put, after_get, after_none, split_from, new_from};
ghost use Rattle.rds_mail.specs.Learning.{AllGot};
ghost use Rattle.rds_mail.specs.Numbers.{Number};

use crate::bell::Bell;
use crate::pass::{GetPass, PutPass};
use crate::plays::{Getting, Putting, Roles, Splitting};
use crate::rule::MailRule;
use crate::view::View;
use crossbeam_queue::RuledSegQueue;
use rds_wire::Memory;
use std::alloc::Global;
use std::marker::Model;
use std::sync::Wait;

/// An unbounded queue with many putters and one getter. Contracts see which queue it is and which bell it has; its items
/// they see in the passes: what was got, then what is queued, is one list whose items of each putter are what it put.
pub struct Mail<T: Drop> {
    pub(crate) queue: RuledSegQueue<T, View<T>, MailRule>,
    bell: Bell,
}

impl<T: Drop> Model for Mail<T> {
    ghost use Rattle.rds_mail.specs.Passes.{Mailbox};

    ghost Value = { Mailbox };

    ghost view = { λ m. record { line = m.queue; bell = m.bell } };
}

impl<T: Drop> Mail<T> {
    /// An empty mailbox, its first putter and its getter.
    ///
    /// # Errors
    ///
    /// Where there is no memory for it.
    pub fn new(alloc: Global) -> Result<(Mail<T>, PutPass<T>, GetPass<T>), Memory>
        ensures put { IfOk result (λ r. r.1 ≡ first_putter r.0.line) }
        ensures get { IfOk result (λ r. r.2 ≡ first_getter r.0.line) }
    {
        let (queue, mut pass) = RuledSegQueue::with_rule(alloc)?;
        let get = queue.another::<Roles>(&mut pass);
        let bell = Bell::new();
        Ok((
            Mail { queue, bell },
            PutPass { pass },
            GetPass {
                pass: get,
                empties: 0,
            },
        ))
    }

    /// A new putter, which has put nothing.
    pub fn split(&self, pass: &mut PutPass<T>) -> PutPass<T>
        requires { pass.old.mail ≡ self.now.line }
        ensures pass { pass.new ≡ split_from pass.old }
        ensures new { result ≡ new_from pass.old }
    {
        let new = self.queue.another::<Splitting>(&mut pass.pass);
        PutPass { pass: new }
    }

    /// Puts an item behind all others.
    ///
    /// # Errors
    ///
    /// The item is handed back where there is no memory for its place. Nothing was put.
    pub fn put<R: Wait>(&self, rt: &R, pass: &mut PutPass<T>, item: T) -> Result<(), (T, Memory)>
        requires { pass.old.mail ≡ self.now.line }
        ensures put { OnOk result (pass.new ≡ after_put pass.old item) }
        ensures back { IfErr result (λ r. r.0 ≡ item) }
        ensures same { IfErr result (λ _. pass.new ≡ pass.old) }
    {
        match self.queue.push_as::<Putting, R>(rt, &mut pass.pass, item) {
            Ok(()) => Ok(()),
            Err(item) => Err((item, Memory)),
        }
    }

    /// Takes the first item. `None` where its own step found the queue empty, which shows that all items that notes told of
    /// were got, and all of joined putters.
    pub fn get<R: Wait>(&self, rt: &R, get: &mut GetPass<T>) -> Option<T>
        requires { get.old.mail ≡ self.now.line }
        ensures got { IfSome result (λ item. (number : Number) × (get.new ≡ after_get get.old number item)) }
        ensures same { IfNone result (get.new ≡ get.old) }
        ensures empty { IfNone result (AllGot get.old) }
    {
        self.queue.pop_as::<Getting, R>(rt, &mut get.pass)
    }

    /// Takes the first item, as `get` does, and counts each `None`. Nothing else raises the count, so a count that was raised
    /// shows that the queue was looked at and found empty. It stands still at the end of its type.
    pub fn get_counted<R: Wait>(&self, rt: &R, get: &mut GetPass<T>) -> Option<T>
        requires { get.old.mail ≡ self.now.line }
        ensures got { IfSome result (λ item. (number : Number) × (get.new ≡ after_get get.old number item)) }
        ensures counted { IfNone result (get.new ≡ after_none get.old) }
        ensures empty { IfNone result (AllGot get.old) }
    {
        let item = self.get(rt, get);
        if item.is_none() {
            get.empties = get.empties.saturating_add(1);
        }
        item
    }

    /// The bell of this mailbox.
    pub fn bell(&self) -> &Bell
        ensures { result.now ≡ self.now.bell }
    {
        &self.bell
    }
}

impl<T: Drop> Drop for Mail<T> {
    fn drop(self) {
        let Self { queue, bell: _bell } = self;
        queue.destroy();
    }
}
