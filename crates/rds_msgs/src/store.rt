ghost use Rattle.std.specs.Prelude.{◌≡◌, ◌⊎◌, ◌≤◌, ◌<◌, ◌+◌, ◌-◌, ◌==◌, max, [], ◌∷◌, ◌++◌, length, slice_get, IfOk, OnOk, OnErr, IfSome, OnSome, IfNone, IsTrue, ◌↔◌, option_copied, All};
ghost use Rattle.rds_model.specs.declared.entry.Target.TheVariants.{Port, All as Every};
ghost use Rattle.rds_msgs.specs.Messages.{IsAscending, message_numbers, bytes_of, covered_messages, messages_from, after_cancel, without_first};

use crate::Steps;
use crate::items::{message, put};
use crate::marks::{marked, take_off};
use crate::slot_walk::{push_covered, withdraw};
use crate::slots::{has_slot, list_of};
use rds_model::{Msg, NO_SLOT, Target};
use rds_msgs_lists::{Index, Lists};
use rds_wire::Memory;
use std::alloc::Global;
use std::marker::Model;
use std::sync::ledger::Ledger;

/// How many messages a store may hold.
pub const MAX_MESSAGES: u32 = 4_294_967_294;

/// Messages in the order of their numbers, with a mark between those that are pulled and those that aren't. Contracts
/// see the list, the mark, the number of further messages for which there is room, and the number of slots.
///
/// The message of an index is the one that `items` has there; the mark is the first that isn't pulled, or none.
#[derive(Drop)]
pub struct Store {
    lists: Lists,
    items: Vec<Msg>,
    mark: Option<Index>,
    slots: u16,
}

impl Model for Store {
    ghost use Rattle.std.specs.Vec.{vec_capacity};
    ghost use Rattle.rds_msgs.specs.Messages.{StoreView};
    ghost use Rattle.rds_msgs.specs.Kept.{seen, IsStore};

    ghost Value = { StoreView };

    ghost view = { λ s. seen s.lists s.items.items s.mark s.slots };

    ghost invariant = { λ s. IsStore s.lists s.items.items s.mark s.slots (vec_capacity s.items) };
}

impl Store {
    /// A store without messages, for sockets with slots below `slots`.
    ///
    /// # Errors
    ///
    /// Where there is no memory for its tables.
    pub fn new(alloc: Global, slots: u16) -> Result<Store, Memory>
        ensures empty { IfOk result (λ s. s ≡ record { messages = []; mark = 0; spare = 0; slots = slots }) }
    {
        Ok(Store {
            lists: Lists::new(alloc, u32::from(slots) + 1)?,
            items: Vec::new(alloc),
            mark: None,
            slots,
        })
    }

    /// Makes room for `n` more messages.
    ///
    /// # Errors
    ///
    /// Where there is no memory for them. The store is as before.
    pub fn reserve(&mut self, n: u32) -> Result<(), Memory>
        ensures ok { OnOk result (self.new ≡ record self.old { spare = max self.old.spare n }) }
        ensures err { OnErr result (self.new ≡ self.old) }
    {
        let used = self.lists.len();
        let free = self.items.len() as u32 - used;
        self.items.reserve(n.saturating_sub(free) as usize)?;
        self.lists.reserve(n)
    }

    /// How many messages there are.
    pub fn len(&self) -> u32
        ensures len { result ≡ length self.now.messages }
        ensures pulled { self.now.mark ≤ length self.now.messages }
        ensures most { length self.now.messages ≤ MAX_MESSAGES }
        ensures ascending { IsAscending self.now.messages }
    {
        self.lists.len()
    }

    /// Whether there is none.
    pub fn is_empty(&self) -> bool
        ensures { result ≡ (length self.now.messages == 0) }
    {
        self.lists.len() == 0
    }

    /// Below which number the slots of sockets are.
    pub fn slots(&self) -> u16
        ensures { result ≡ self.now.slots }
    {
        self.slots
    }

    /// Adds a message that isn't pulled, of a number above all others.
    pub fn append(&mut self, m: Msg)
        requires room { 1 ≤ self.old.spare }
        requires few { length self.old.messages < MAX_MESSAGES }
        requires above { All (λ (k : Msg). k.num < m.num) self.old.messages }
        requires owned { (m.slot < self.old.slots) ⊎ (m.slot ≡ NO_SLOT) }
        ensures { self.new ≡ record self.old { messages = self.old.messages ++ m ∷ []; spare = self.old.spare - 1 } }
    {
        let at = self.lists.push(list_of(self.slots, m.slot));
        put(&mut self.items, at, m);
        self.mark = marked(self.mark, at);
    }

    /// The least message that isn't pulled.
    pub fn next_to_pull(&self) -> Option<&Msg>
        ensures { option_copied result ≡ slice_get self.now.messages self.now.mark }
    {
        let at = self.mark?;
        Some(&self.items[at.get() as usize])
    }

    /// Whether exactly one message isn't pulled.
    pub fn is_last(&self) -> bool
        ensures { IsTrue result ↔ (self.now.mark + 1 ≡ length self.now.messages) }
    {
        match self.mark {
            None => false,
            Some(at) => self.lists.after(at).is_none(),
        }
    }

    /// Counts the least message that isn't pulled as pulled.
    pub fn mark_pulled(&mut self)
        requires { self.old.mark < length self.old.messages }
        ensures { self.new ≡ record self.old { mark = self.old.mark + 1 } }
    {
        if let Some(at) = self.mark {
            self.mark = self.lists.after(at);
        }
    }

    /// Counts no message as pulled.
    pub fn reset(&mut self)
        ensures { self.new ≡ record self.old { mark = 0 } }
    {
        self.mark = self.lists.first();
    }

    /// Takes out the least message, where its number is at most `upto`.
    pub fn pop_acked<L: Ledger>(&mut self, upto: u64, steps: &mut Steps<L>) -> Option<Msg>
        ensures popped { IfSome result (λ m. self.old.messages ≡ m ∷ self.new.messages) }
        ensures acked { IfSome result (λ m. m.num ≤ upto) }
        ensures rest { OnSome result (self.new ≡ without_first self.old) }
        ensures none { IfNone result (self.new ≡ self.old) }
        ensures unacked { IfNone result (All (λ (m : Msg). upto < m.num) self.old.messages) }
        ensures cost { steps.new ≡ steps.old + 1 }
    {
        steps.tick();
        let at = self.lists.first()?;
        let m = message(&self.items, at);
        if m.num > upto {
            return None;
        }
        self.mark = take_off(&mut self.lists, self.mark, at);
        Some(m)
    }

    /// Takes out the messages of a slot to a port, and gives their bytes.
    pub fn cancel<L: Ledger>(&mut self, slot: u16, dport: u16, steps: &mut Steps<L>) -> u64
        ensures bytes { result ≡ bytes_of (covered_messages slot (Port dport) self.old.messages) }
        ensures rest { self.new ≡ after_cancel slot (Port dport) self.old }
        ensures cost { steps.new ≤ steps.old + length (messages_from slot self.old.messages) + 1 }
    {
        self.take_out(slot, Target::Port(dport), steps)
    }

    /// Takes out the messages of a slot, and gives their bytes.
    pub fn cancel_all<L: Ledger>(&mut self, slot: u16, steps: &mut Steps<L>) -> u64
        ensures bytes { result ≡ bytes_of (covered_messages slot Every self.old.messages) }
        ensures rest { self.new ≡ after_cancel slot Every self.old }
        ensures cost { steps.new ≤ steps.old + length (messages_from slot self.old.messages) + 1 }
    {
        self.take_out(slot, Target::All, steps)
    }

    fn take_out<L: Ledger>(&mut self, slot: u16, target: Target, steps: &mut Steps<L>) -> u64
        ensures bytes { result ≡ bytes_of (covered_messages slot target self.old.messages) }
        ensures rest { self.new ≡ after_cancel slot target self.old }
        ensures cost { steps.new ≤ steps.old + length (messages_from slot self.old.messages) + 1 }
    {
        if !has_slot(self.slots, slot) {
            return 0;
        }
        let left = withdraw(
            &mut self.lists,
            &self.items,
            self.mark,
            self.slots,
            slot,
            target,
            steps,
        );
        self.mark = left.mark;
        left.bytes
    }

    /// Replaces `out` by the numbers of the messages that such a cancellation would take, ascending.
    ///
    /// # Errors
    ///
    /// Where there is no memory for them. `out` is as before.
    pub fn covered(&self, slot: u16, target: &Target, out: &mut Vec<u64>) -> Result<(), Memory>
        ensures ok { OnOk result (out.new.items ≡ message_numbers (covered_messages slot target.now self.now.messages)) }
        ensures err { OnErr result (out.new.items ≡ out.old.items) }
    {
        let mut found = Vec::new(*out.allocator());
        push_covered(
            &self.lists,
            &self.items,
            self.slots,
            slot,
            *target,
            &mut found,
        )?;
        *out = found;
        Ok(())
    }
}
