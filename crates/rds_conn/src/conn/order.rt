ghost use Rattle.std.specs.Prelude.{◌≡◌, ℕ, ◌+◌, ◌-◌, ◌<◌, ◌≤◌, ◌⊎◌, ◌==◌, if◌then◌else◌, [], ◌∷◌, ◌++◌, length, All};
ghost use Rattle.rds_wire.specs.declared.kind.TheConstants.{MAX_LENGTH};
ghost use Rattle.rds_model.specs.declared.entry.Entry.TheVariants as entry;
ghost use Rattle.rds_model.specs.declared.entry.Target.TheVariants as target;
ghost use Rattle.rds_model.specs.declared.entry.Msg.{Msg};
ghost use Rattle.rds_conn.specs.Connection.{IsReady, freed_bytes_of, with_entries};
ghost use Rattle.rds_conn.specs.Released.{released_bytes};
ghost use Rattle.rds_conn.specs.Costs.{slot_numbers, order_steps};
ghost use Rattle.rds_conn.specs.Orders.{IsOrderFor, after_order, accepted_bytes};
ghost use Rattle.rds_model.specs.Alive.{alive_bytes};

use super::Conn;
use rds_model::{Entry, Journal, Msg, NO_SLOT, Order, Target};
use rds_msgs::{Steps, Store};
use rds_wire::Payload;
use std::sync::ledger::Ledger;

impl Conn {
    /// Takes an order of a socket: a datagram is accepted under the next number, or those of the socket that are alive
    /// are taken back, to one port (as rds(7) has it) or all, and their bytes are freed. The journal has it before the call
    /// returns. A connection takes no `Cut`. Each message that is visited is a step.
    pub fn order<L: Ledger>(&mut self, order: Order, steps: &mut Steps<L>)
        requires ready { IsReady self.old }
        requires allowed { IsOrderFor self.old.slots order }
        ensures entry { self.new ≡ record (after_order order self.old) { freed = self.new.freed } }
        ensures freed { (slot : ℕ) → slot < self.old.slots →
            freed_bytes_of slot self.new + released_bytes slot self.old.log.past ≡ freed_bytes_of slot self.old + released_bytes slot self.new.log.past }
        ensures conserved { (slot : ℕ) → slot < self.old.slots → freed_bytes_of slot self.new + alive_bytes slot self.new.log.past
            ≡ freed_bytes_of slot self.old + alive_bytes slot self.old.log.past + accepted_bytes slot order }
        ensures few { steps.new ≤ steps.old + order_steps order self.old.log.past }
    {
        match order {
            Order::Send {
                slot,
                sport,
                dport,
                payload,
            } => self.send(slot, sport, dport, payload),
            Order::Cancel { slot, dport } => self.cancel(slot, dport, steps),
            Order::CloseSocket { slot } => self.cancel_all(slot, steps),
            Order::Cut => unreachable!(),
        }
    }

    fn send(&mut self, slot: u16, sport: u16, dport: u16, payload: Payload)
        requires ready { IsReady self.old }
        requires slot { slot < self.old.slots }
        requires fits { length payload ≤ MAX_LENGTH }
        ensures entry { self.new ≡
            record (with_entries (entry.Accept slot sport dport payload ∷ []) self.old) { store_spare = self.old.store_spare - 1 } }
        ensures gone { (other : ℕ) → released_bytes other self.new.log.past ≡ released_bytes other self.old.log.past }
        ensures alive { (other : ℕ) → alive_bytes other self.new.log.past
            ≡ alive_bytes other self.old.log.past + (if slot == other then length payload else 0) }
    {
        self.accepted += 1;
        self.charges.add(slot, u64::from(payload.len()));
        accept(
            &mut self.journal,
            &mut self.store,
            self.accepted,
            slot,
            sport,
            dport,
            payload,
        );
        self.spare -= 1;
        self.store_spare -= 1;
    }

    fn cancel<L: Ledger>(&mut self, slot: u16, dport: u16, steps: &mut Steps<L>)
        requires ready { IsReady self.old }
        requires slot { slot < self.old.slots }
        ensures entry { self.new ≡ record (with_entries (entry.Cancel slot (target.Port dport) ∷ []) self.old) { freed = self.new.freed } }
        ensures freed { (other : ℕ) → other < self.old.slots →
            freed_bytes_of other self.new + released_bytes other self.old.log.past ≡ freed_bytes_of other self.old + released_bytes other self.new.log.past }
        ensures conserved { (other : ℕ) → other < self.old.slots →
            freed_bytes_of other self.new + alive_bytes other self.new.log.past ≡ freed_bytes_of other self.old + alive_bytes other self.old.log.past }
        ensures few { steps.new ≤ steps.old + length (slot_numbers slot self.old.log.past) + 1 }
    {
        let bytes = self.store.cancel(slot, dport, steps);
        self.freed.add(slot, bytes);
        self.journal.push(Entry::Cancel {
            slot,
            target: Target::Port(dport),
        });
        self.spare -= 1;
    }

    fn cancel_all<L: Ledger>(&mut self, slot: u16, steps: &mut Steps<L>)
        requires ready { IsReady self.old }
        requires slot { slot < self.old.slots }
        ensures entry { self.new ≡ record (with_entries (entry.Cancel slot target.All ∷ []) self.old) { freed = self.new.freed } }
        ensures freed { (other : ℕ) → other < self.old.slots →
            freed_bytes_of other self.new + released_bytes other self.old.log.past ≡ freed_bytes_of other self.old + released_bytes other self.new.log.past }
        ensures conserved { (other : ℕ) → other < self.old.slots →
            freed_bytes_of other self.new + alive_bytes other self.new.log.past ≡ freed_bytes_of other self.old + alive_bytes other self.old.log.past }
        ensures few { steps.new ≤ steps.old + length (slot_numbers slot self.old.log.past) + 1 }
    {
        let bytes = self.store.cancel_all(slot, steps);
        self.freed.add(slot, bytes);
        self.journal.push(Entry::Cancel {
            slot,
            target: Target::All,
        });
        self.spare -= 1;
    }
}

/// Accepts the datagram of number `num`.
pub(super) fn accept(
    journal: &mut Journal,
    store: &mut Store,
    num: u64,
    slot: u16,
    sport: u16,
    dport: u16,
    payload: Payload,
)
    requires room { 1 ≤ journal.old.spare }
    requires store_room { 1 ≤ store.old.spare }
    requires few { length store.old.messages < 4294967294 }
    requires above { All (λ (m : Msg). m.num < num) store.old.messages }
    requires owned { (slot < store.old.slots) ⊎ (slot ≡ NO_SLOT) }
    ensures entry { journal.new ≡ record journal.old {
      past = entry.Accept slot sport dport payload ∷ journal.old.past;
      spare = journal.old.spare - 1;
    } }
    ensures message { store.new ≡ record store.old {
      messages = store.old.messages ++ record { num = num; place = length journal.old.past; slot = slot; dport = dport; len = length payload } ∷ [];
      spare = store.old.spare - 1;
    } }
{
    store.append(Msg {
        num,
        place: journal.len(),
        slot,
        dport,
        len: payload.len(),
    });
    journal.push(Entry::Accept {
        slot,
        sport,
        dport,
        payload,
    });
}
