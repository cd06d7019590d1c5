//! What a run comes to where nothing in its script leaves a choice. Bodies are empty; each clause is a theorem.
ghost use Rattle.std.specs.Prelude.{◌≡◌, ◌<◌, ◌≤◌, ◌+◌, ℕ, true, [], List};
ghost use Rattle.rds_model.specs.declared.entry.Entry.{Entry};
ghost use Rattle.rds_model.specs.Alive.{alive_numbers};
ghost use Rattle.rds_model.specs.Fifo.{IsFifo};
ghost use Rattle.rds_model.specs.Honest.{IsHonest};
ghost use Rattle.rds_model.specs.Legal.{IsLegal};
ghost use Rattle.rds_model.specs.Past.{accepted};
ghost use Rattle.rds_model.specs.Streams.{was_passed};
ghost use Rattle.rds_model.specs.Sums.{orders};
ghost use Rattle.rds_script_gen.specs.Generator.{generated};
ghost use Rattle.rds_script.specs.declared.script.Placed.{Placed};
ghost use Rattle.rds_host_end.specs.Joined.{orders_of};
ghost use Rattle.rds_run_callers.specs.Places.{Place};
ghost use Rattle.rds_run_hosts.specs.Obeyed.{HasObeyed};
ghost use Rattle.rds_run_laws.specs.Put.{own_sum, places_sum};
ghost use Rattle.rds_run_laws.specs.Sent.{generated_bytes, sent_sum};
ghost use Rattle.rds_run_laws.specs.Weights.{OnlySends, Weight, by_length, by_one, accepted_sum, orders_sum, passed_sum, slots_sum};

use rds_model::laws::{accounted_of_all, fifo_of_all};

/// What one end passed sums up to no more than what the other accepted, by whatever weight of datagrams, and to as much where each number was
/// passed.
pub fn sums_of_journals()
    ensures few { (weight : Weight) → (a b : List Entry) → IsFifo a b → passed_sum weight b ≤ accepted_sum weight a }
    ensures all { (weight : Weight) → (a b : List Entry) → IsFifo a b → ((n : ℕ) → 0 < n → n ≤ accepted a → was_passed b n ≡ true) →
        passed_sum weight b ≡ accepted_sum weight a }
{}

/// Where neither end took anything back or sent to port 0, and no number of the first is alive, what the second passed sums up to what the first
/// was ordered to send, by whatever weight of datagrams. With no word about what is alive it is no more than that.
pub fn orders_arrive()
    ensures few { (weight : Weight) → (a b : List Entry) → IsLegal a → IsLegal b → IsHonest a b → OnlySends a → OnlySends b →
        passed_sum weight b ≤ orders_sum weight (orders a) }
    ensures all { (weight : Weight) → (a b : List Entry) → IsLegal a → IsLegal b → IsHonest a b → alive_numbers a ≡ [] → OnlySends a → OnlySends b →
        passed_sum weight b ≡ orders_sum weight (orders a) }
{
    fifo_of_all();
    accounted_of_all();
}

/// A generated script sends as many datagrams as it has sends, and their bytes don't depend on its seed.
pub fn generated_sends()
    ensures count { (sends seed : ℕ) → sent_sum by_one (generated sends seed).commands ≡ sends }
    ensures bytes { (sends seed : ℕ) → sent_sum by_length (generated sends seed).commands ≡ generated_bytes sends }
{}

/// What a host's caller puts on its routes sends no more than the host's own commands, whatever they are.
pub fn callers_put()
    ensures { (weight : Weight) → (host : ℕ) → (commands : List Placed) → (first last : List Place) → HasObeyed host commands first last →
        places_sum weight last ≤ places_sum weight first + own_sum weight host commands }
{}

/// Where no slot from a number on has an order in a journal, the orders of the slots below it are all of its orders.
pub fn orders_by_slot()
    ensures { (weight : Weight) → (slots : ℕ) → (past : List Entry) → ((slot : ℕ) → slots ≤ slot → orders_of slot past ≡ []) →
        slots_sum weight slots past ≡ orders_sum weight (orders past) }
{}
