//! The caller of a host.
ghost use Rattle.std.specs.Prelude.{◌≡◌, [], ℕ, Some, IfOk, OnOk, length, slice_get};
ghost use Rattle.rds_fmap.specs.Readers.{ReaderView};
ghost use Rattle.rds_script.specs.Script.{IsCommand};
ghost use Rattle.rds_socket.specs.Holding.{Holding};
ghost use Rattle.rds_run_callers.specs.Doing.{IsDone};
ghost use Rattle.rds_run_callers.specs.Places.{ArePlaces, PlacesKeep, vacant_places};
ghost use Rattle.rds_run_callers.specs.States.{AreSlots, shown_all};

use crate::slots::Slots;
use crate::state::State;
use rds_fmap::Reader;
use rds_script::Command;
use rds_socket::Vacant;
use rds_text::address;
use rds_wire::Memory;
use std::alloc::Global;
use std::marker::Model;
use std::sync::Wait;

/// The caller of a host. Contracts see the host's number and what became of each of its slots, in order.
pub struct Caller {
    pub(crate) host: u8,
    pub(crate) slots: Slots,
}

// By hand, so that one call drops it wherever it is let go, and no function that owns one drops each field.
impl Drop for Caller {
    fn drop(self) {
        let Self {
            host: _,
            slots: _slots,
        } = self;
    }
}

impl Model for Caller {
    ghost use Rattle.std.specs.Prelude.{◌≤◌, length};
    ghost use Rattle.rds_run_callers.specs.Places.{CallerView, ArePlaces};

    ghost Value = { CallerView };

    ghost use Rattle.rds_run_callers.specs.States.{shown_all, AreSlots};

    ghost view = { λ c. record { host = c.host; places = shown_all c.slots.states.items } };

    ghost invariant = { λ c. AreSlots c.slots.states.items };
}

impl Caller {
    /// The caller of host number `host`, counted from 0, with its slots, from slot 0 upward, whose mailboxes gave nothing yet.
    ///
    /// # Errors
    ///
    /// Where there is no memory for the slots, or there are more than 65,535.
    pub fn new(alloc: Global, host: u8, vacants: Vec<Vacant<Reader>>) -> Result<Caller, Memory>
        requires number { (slot : ℕ) (h : Holding ReaderView) → slice_get vacants.items slot ≡ Some h → h.words.slot ≡ slot }
        requires empty { (slot : ℕ) (h : Holding ReaderView) → slice_get vacants.items slot ≡ Some h → h.inbox.get.got ≡ [] }
        ensures host { IfOk result (λ caller. caller.host ≡ host) }
        ensures places { IfOk result (λ caller. caller.places ≡ vacant_places vacants.items) }
    {
        let slots = Slots::new(alloc, vacants)?;
        Ok(Caller { host, slots })
    }

    // What became of each slot.
    pub(crate) fn into_states(self) -> Vec<State>
        ensures sound { AreSlots result.items }
        ensures places { shown_all result.items ≡ self.places }
    {
        let Caller { host: _, slots } = self;
        slots.into_states()
    }

    /// How many slots there are.
    pub fn slots(&self) -> u16
        ensures count { result ≡ length self.now.places }
        ensures places { ArePlaces self.now.places }
    {
        self.slots.len() as u16
    }

    /// Does a command of the host. One that is refused does nothing, and neither do those that speak of streams, but a cut.
    ///
    /// # Errors
    ///
    /// Where memory runs out, or where a port is taken that should be free, or the other way round. Then the slots are the
    /// same, but what became of one of them may not be what the command asks for.
    pub fn obey<R: Wait>(&mut self, rt: &R, alloc: Global, command: &Command) -> Result<(), Memory>
        requires { (hosts : ℕ) × IsCommand hosts command.now }
        ensures host { self.new.host ≡ self.old.host }
        ensures keeps { PlacesKeep self.old.places self.new.places }
        ensures done { OnOk result (IsDone command.now self.old.places self.new.places) }
    {
        match command {
            Command::Bind {
                port,
                sndbuf,
                rcvbuf,
                ..
            } => self.bind(alloc, *port, *sndbuf, *rcvbuf),
            Command::BindAny {
                port,
                sndbuf,
                rcvbuf,
                ..
            } => self.bind_any(alloc, *port, *sndbuf, *rcvbuf),
            Command::Send {
                port,
                to,
                dport,
                payload,
                ..
            } => self.send(rt, *port, address(*to), *dport, payload),
            Command::Recv { port, .. } => self.receive(rt, *port),
            Command::Cancel {
                port,
                to,
                dport,
                ..
            } => self.cancel(rt, *port, address(*to), *dport),
            Command::Close { port, .. } => self.close(rt, *port),
            Command::Cut { to, .. } => self.cut(rt, address(*to)),
            Command::Open { .. } | Command::Move { .. } | Command::Drain => Ok(()),
        }
    }
}
