//! What a caller does when its host has ended: notes of what its slots have put, and what their mailboxes are told.
ghost use Rattle.std.specs.Prelude.{◌≡◌, ◌<◌, ℕ, length, map, Some, slice_get, slice_set};
ghost use Rattle.std.specs.Option.{option_map};
ghost use Rattle.rds_fmap.specs.Readers.{ReaderView};
ghost use Rattle.rds_socket_parts.specs.Lanes.{IsLaneAt, Lane};
ghost use Rattle.rds_run_callers.specs.Places.{Place, IsUsed, holding_of, told_by, bind_note, spared};
ghost use Rattle.rds_run_callers.specs.States.{shown};

use crate::caller::Caller;
use crate::slots::Slots;
use crate::state::State;
use rds_bindtab::BindNote;
use rds_mail::{Asked, Note};
use rds_model::Datagram;

impl Caller {
    /// Gives up each slot that no socket had.
    pub fn leave_vacants(&mut self)
        ensures host { self.new.host ≡ self.old.host }
        ensures places { self.new.places ≡ map spared self.old.places }
    {
        leave_all(&mut self.slots);
    }

    /// A note of what a slot that isn't vacant has put on the order queue of a route, counted from 0.
    pub fn order_note(&mut self, slot: u16, place: usize) -> Note<Asked>
        requires used { (p : Place) × (slice_get self.old.places slot ≡ Some p) × IsUsed p × (place < length (holding_of p).routes) }
        ensures same { self.new ≡ self.old }
        ensures note { (p : Place) → slice_get self.old.places slot ≡ Some p →
            (lane : Lane ReaderView) × IsLaneAt (holding_of p).routes place lane × (result ≡ lane.pass) }
    {
        let slot = usize::from(slot);
        let mut state = self.slots.replace(slot, State::Away);
        let note = state.order_note(place);
        self.slots.replace(slot, state);
        note
    }

    /// The mailbox of a slot that isn't vacant is told of what one of its putters had put.
    pub fn hear(&mut self, slot: u16, note: Note<Datagram>)
        requires used { (p : Place) × (slice_get self.old.places slot ≡ Some p) × IsUsed p × (note.mail ≡ (holding_of p).inbox.get.mail) }
        ensures host { self.new.host ≡ self.old.host }
        ensures told { (p : Place) → slice_get self.old.places slot ≡ Some p → self.new.places ≡ slice_set self.old.places slot (told_by p note) }
    {
        let slot = usize::from(slot);
        let mut state = self.slots.replace(slot, State::Away);
        state.hear(note);
        self.slots.replace(slot, state);
    }

    /// A note of the port that a slot's socket holds, if one is bound.
    pub fn port_note(&mut self, slot: u16) -> Option<BindNote>
        requires { slot < length self.old.places }
        ensures same { self.new ≡ self.old }
        ensures note { (p : Place) → slice_get self.old.places slot ≡ Some p → result ≡ bind_note p }
    {
        let slot = usize::from(slot);
        let mut state = self.slots.replace(slot, State::Away);
        let note = state.port_note();
        self.slots.replace(slot, state);
        note
    }
}

// Gives up each slot that no socket had.
fn leave_all(slots: &mut Slots)
    ensures { map shown slots.new.states.items ≡ map (option_map spared) (map shown slots.old.states.items) }
{
    for slot in 0..slots.len() {
        let state = slots.replace(slot, State::Away);
        slots.replace(slot, state.spared());
    }
}
