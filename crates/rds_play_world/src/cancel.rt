ghost use Rattle.std.specs.Prelude.{◌≡◌, ◌≢◌, ◌<◌, ◌∷◌, [], ℕ, nat_le, nat_lt, not, codes, IfOk, List, OnOk, filter};
ghost use Rattle.rds_model.specs.declared.entry.Entry.TheVariants.{Cancel};
ghost use Rattle.rds_model.specs.declared.entry.Target.TheVariants.{Port};
ghost use Rattle.rds_model.specs.declared.entry.TheConstants.{MAX_SLOTS};
ghost use Rattle.rds_model.specs.Alive.{covered};
ghost use Rattle.rds_model.specs.Streams.{was_pulled};
ghost use Rattle.rds_play_pair.specs.Changes.{entries_of, is_allowed};
ghost use Rattle.rds_play_mesh.specs.Ends.{end_at};
ghost use Rattle.rds_text.specs.Refusals.{socket_refused_line as line_of_refused};
ghost use Rattle.rds_history.specs.Cancel.{cancel, cancel_refusal};
ghost use Rattle.rds_history.specs.Courses.{appends, or_refuses};
ghost use Rattle.rds_history.specs.Events.{Event, Appended};
ghost use Rattle.rds_play_world.specs.Coming.{Comes};
ghost use Rattle.rds_play_world.specs.Readiness.{LacksMemory};
ghost use Rattle.rds_play_world.specs.Telling.{Tells, state};

use crate::opening::or_memory;
use crate::stop::Stop;
use crate::world::World;
use rds_model::{Order, Target};
use rds_text::{Refusal, cancel_line};
use rds_wire::Memory;
use std::alloc::Global;

// The numbers that a cancellation covers, by whether their transmission has begun.
#[derive(Drop)]
struct Covered {
    begun: Vec<u64>,
    unbegun: Vec<u64>,
}

// The numbers up to one.
fn up_to(alloc: Global, numbers: &[u64], highest: u64) -> Result<Vec<u64>, Memory>
    ensures { IfOk result (λ these. these.items ≡ filter (λ n. nat_le n highest) numbers.now) }
{
    let these = numbers
        .iter()
        .copied()
        .filter(|n| *n <= highest)
        .collect(alloc)?;
    Ok(these)
}

// The numbers above one.
fn above(alloc: Global, numbers: &[u64], highest: u64) -> Result<Vec<u64>, Memory>
    ensures { IfOk result (λ these. these.items ≡ filter (λ n. nat_lt highest n) numbers.now) }
{
    let these = numbers
        .iter()
        .copied()
        .filter(|n| *n > highest)
        .collect(alloc)?;
    Ok(these)
}

// Parts covered numbers, `highest` being the highest that was ever pulled.
fn parted(alloc: Global, numbers: &[u64], highest: u64) -> Result<Covered, Memory>
    ensures begun { IfOk result (λ parts. parts.begun.items ≡ filter (λ n. nat_le n highest) numbers.now) }
    ensures unbegun { IfOk result (λ parts. parts.unbegun.items ≡ filter (λ n. nat_lt highest n) numbers.now) }
{
    let begun = up_to(alloc, numbers, highest)?;
    let unbegun = above(alloc, numbers, highest)?;
    Ok(Covered { begun, unbegun })
}

// The order that a cancellation of a slot's datagrams is.
fn cancellation(slot: u16, target: Target) -> Order
    ensures entry { entries_of result ≡ Cancel slot target ∷ [] }
    ensures allowed { is_allowed MAX_SLOTS result ≡ nat_lt slot MAX_SLOTS }
{
    match target {
        Target::Port(dport) => Order::Cancel { slot, dport },
        Target::All => Order::CloseSocket { slot },
    }
}

impl World {
    /// Takes back what the socket at a port of a host has sent to a port of a peer.
    ///
    /// # Errors
    ///
    /// What stops the run: `Memory` where there is none, and `Spent` where a journal that it adds to is full.
    pub fn cancel(&mut self, host: u8, port: u16, to: u8, dport: u16) -> Result<(), Stop>
        requires host { host < self.old.count }
        requires peer { to < self.old.count }
        ensures count { self.new.count ≡ self.old.count }
        ensures course { (limit hosts : ℕ) (past : List Event) → Tells limit hosts past (state self.old) →
            Comes limit hosts (cancel limit host port to dport past) result (state self.new) }
    {
        match self.hosts[usize::from(host)].holder(port) {
            Some(slot) => self.cancel_from(host, port, slot, to, dport),
            None => self.refuse_socket("cancel", host, port, Refusal::NoSocket),
        }
    }

    // Takes back what the socket of a slot, which has this port, has sent to a port of a peer.
    fn cancel_from(
        &mut self,
        host: u8,
        port: u16,
        slot: u16,
        to: u8,
        dport: u16,
    ) -> Result<(), Stop>
        requires host { host < self.old.count }
        requires peer { to < self.old.count }
        requires slot { slot < MAX_SLOTS }
        ensures count { self.new.count ≡ self.old.count }
        ensures course { (limit hosts : ℕ) (past : List Event) → Tells limit hosts past (state self.old) →
            Comes limit hosts (or_refuses (cancel_refusal host to) (line_of_refused (codes "cancel") host port)
            (appends limit host to (Cancel slot (Port dport))) past) result (state self.new) }
    {
        if host == to {
            return self.refuse_socket("cancel", host, port, Refusal::NoRoute);
        }
        self.take_back(host, to, slot, Target::Port(dport))
    }

    /// Takes back datagrams of a slot to a peer, where the journal has room, and prints which.
    pub(crate) fn take_back(
        &mut self,
        host: u8,
        peer: u8,
        slot: u16,
        target: Target,
    ) -> Result<(), Stop>
        requires host { host < self.old.count }
        requires peer { peer < self.old.count }
        requires apart { peer ≢ host }
        requires slot { slot < MAX_SLOTS }
        ensures count { self.new.count ≡ self.old.count }
        ensures course { (limit hosts : ℕ) (past : List Event) → Tells limit hosts past (state self.old) →
            Comes limit hosts (appends limit host peer (Cancel slot target) past) result (state self.new) }
    {
        self.ready(host, peer)?;
        self.take_out(host, peer, slot, target)
    }

    // Takes back datagrams of a slot to a peer, and prints which.
    fn take_out(&mut self, host: u8, peer: u8, slot: u16, target: Target) -> Result<(), Stop>
        requires host { host < self.old.count }
        requires peer { peer < self.old.count }
        requires apart { peer ≢ host }
        requires slot { slot < MAX_SLOTS }
        ensures count { self.new.count ≡ self.old.count }
        ensures told { (limit hosts : ℕ) (past : List Event) → Tells limit hosts past (state self.old) →
            OnOk result (Tells limit hosts (Appended host peer (Cancel slot target) ∷ past) (state self.new)) }
        ensures stop { LacksMemory result }
    {
        let covered = self.covered(host, peer, slot, target)?;
        or_memory(self.mesh.order(host, peer, &cancellation(slot, target)))?;
        cancel_line(
            &mut self.text,
            host,
            peer,
            slot,
            target,
            &covered.begun,
            &covered.unbegun,
        )?;
        Ok(())
    }

    // The numbers that a cancellation of a slot's datagrams covers now.
    fn covered(&self, host: u8, peer: u8, slot: u16, target: Target) -> Result<Covered, Memory>
        requires host { host < self.now.count }
        requires peer { peer < self.now.count }
        requires apart { peer ≢ host }
        ensures begun { IfOk result (λ parts. parts.begun.items ≡
            filter (was_pulled (end_at host peer self.now.mesh).past) (covered slot target (end_at host peer self.now.mesh).past)) }
        ensures unbegun { IfOk result (λ parts. parts.unbegun.items ≡
            filter (λ n. not (was_pulled (end_at host peer self.now.mesh).past n)) (covered slot target (end_at host peer self.now.mesh).past)) }
    {
        let mut numbers = Vec::new(self.alloc);
        self.mesh.covered(host, peer, slot, &target, &mut numbers)?;
        parted(self.alloc, &numbers, self.mesh.highest(host, peer))
    }
}
