ghost use Rattle.std.specs.Prelude.{◌≡◌, ◌≢◌, ◌<◌, ◌≤◌, ◌+◌, ◌*◌, ◌^◌, ◌∷◌, ◌==◌, ℕ, true, false, Some, None, if◌then◌else◌, nat_lt, min, IfNone, IfOk, List, OnOk, length};
ghost use Rattle.std.specs.Option.{option_map, option_map_or};
ghost use Rattle.rds_wire.specs.declared.kind.TheConstants.{MAX_LENGTH};
ghost use Rattle.rds_model.specs.Alive.{alive_bytes};
ghost use Rattle.rds_model.specs.declared.entry.Entry.TheVariants.{Accept};
ghost use Rattle.rds_model.specs.declared.entry.TheConstants.{MAX_SLOTS};
ghost use Rattle.rds_model.specs.declared.order.Order.TheVariants as orders;
ghost use Rattle.rds_model.specs.Drained.{last_map_read};
ghost use Rattle.rds_cong.specs.Map.{has_port};
ghost use Rattle.rds_play_pair.specs.Changes.{is_allowed};
ghost use Rattle.rds_text.specs.Refusals.{congested as text_of_congested, full as text_of_full, no_route as text_of_no_route, refusal_text, send_refused_line as line_of_refused, too_long as text_of_too_long};
ghost use Rattle.rds_history.specs.Courses.{appends, or_refuses, prints};
ghost use Rattle.rds_history.specs.Events.{Event, Appended};
ghost use Rattle.rds_history.specs.Journals.{journal, maps_read};
ghost use Rattle.rds_history.specs.Send.{send, send_refusal};
ghost use Rattle.rds_history.specs.Sockets.{next_slot, unacknowledged};
ghost use Rattle.rds_play_world.specs.Coming.{Comes};
ghost use Rattle.rds_play_world.specs.Readiness.{LacksMemory};
ghost use Rattle.rds_play_world.specs.Telling.{HasSlots, IsTelling, Tells, state};

use crate::opening::or_memory;
use crate::stop::Stop;
use crate::world::{World, place};
use rds_model::Order;
use rds_text::{Refusal, send_refused_line};
use rds_wire::{MAX_LENGTH, Memory, Payload};

// Why a datagram of so many bytes is too long for a send buffer, if it is.
fn too_long(len: u32, buffer: u32) -> Option<Refusal>
    ensures why { option_map refusal_text result ≡
        (if nat_lt (min buffer MAX_LENGTH) len then Some (text_of_too_long len (min buffer MAX_LENGTH)) else None) }
    ensures short { IfNone result (len ≤ MAX_LENGTH) }
{
    let limit = buffer.min(MAX_LENGTH);
    if len > limit {
        return Some(Refusal::TooLong {
            len: u64::from(len),
            limit: u64::from(limit),
        });
    }
    None
}

// Why no datagram goes from a host to a peer, if none does.
fn no_route(host: u8, to: u8) -> Option<Refusal>
    ensures why { option_map refusal_text result ≡ (if host == to then Some text_of_no_route else None) }
    ensures apart { IfNone result (to ≢ host) }
{
    if host == to {
        return Some(Refusal::NoRoute);
    }
    None
}

// The order to send a datagram.
fn send_order(slot: u16, sport: u16, dport: u16, payload: &Payload) -> Result<Order, Memory>
    ensures { IfOk result (λ order. order ≡ orders.Send slot sport dport payload.now) }
{
    let payload = payload.share()?;
    Ok(Order::Send {
        slot,
        sport,
        dport,
        payload,
    })
}

impl World {
    /// Sends a datagram from the socket at a port of a host to a port of a peer.
    ///
    /// # Errors
    ///
    /// What stops the run: `Memory` where there is none, and `Spent` where a journal that it adds to is full.
    pub fn send(
        &mut self,
        host: u8,
        port: u16,
        to: u8,
        dport: u16,
        payload: &Payload,
    ) -> Result<(), Stop>
        requires host { host < self.old.count }
        requires peer { to < self.old.count }
        requires telling { IsTelling (state self.old) }
        ensures count { self.new.count ≡ self.old.count }
        ensures course { (limit hosts : ℕ) (past : List Event) → Tells limit hosts past (state self.old) →
            Comes limit hosts (send limit hosts host port to dport payload.now past) result (state self.new) }
    {
        match self.hosts[usize::from(host)].holder(port) {
            Some(slot) => self.send_from(host, port, slot, to, dport, payload),
            None => self.refuse_send(host, port, to, dport, Refusal::NoSocket),
        }
    }

    // Sends a datagram from the socket of a slot, which has this port.
    fn send_from(
        &mut self,
        host: u8,
        port: u16,
        slot: u16,
        to: u8,
        dport: u16,
        payload: &Payload,
    ) -> Result<(), Stop>
        requires host { host < self.old.count }
        requires peer { to < self.old.count }
        requires slot { slot < MAX_SLOTS }
        requires slots { HasSlots self.old.mesh }
        ensures count { self.new.count ≡ self.old.count }
        ensures course { (limit hosts : ℕ) (past : List Event) → Tells limit hosts past (state self.old) → slot < next_slot host past →
            Comes limit hosts (or_refuses (send_refusal hosts host slot to dport (length payload.now) past)
            (line_of_refused host port to dport) (appends limit host to (Accept slot port dport payload.now)) past)
            result (state self.new) }
    {
        match self.send_refusal(host, slot, to, dport, payload.len()) {
            Some(why) => self.refuse_send(host, port, to, dport, why),
            None => self.accept_from(host, port, slot, to, dport, payload),
        }
    }

    // Sends a datagram that isn't refused.
    fn accept_from(
        &mut self,
        host: u8,
        port: u16,
        slot: u16,
        to: u8,
        dport: u16,
        payload: &Payload,
    ) -> Result<(), Stop>
        requires host { host < self.old.count }
        requires peer { to < self.old.count }
        requires apart { to ≢ host }
        requires slot { slot < MAX_SLOTS }
        requires short { length payload.now ≤ MAX_LENGTH }
        ensures count { self.new.count ≡ self.old.count }
        ensures course { (limit hosts : ℕ) (past : List Event) → Tells limit hosts past (state self.old) →
            Comes limit hosts (appends limit host to (Accept slot port dport payload.now) past) result (state self.new) }
    {
        let order = send_order(slot, port, dport, payload)?;
        self.accept(host, to, &order)
    }

    // Gives an order to a connection that sends a datagram, where its journal has room, and prints its line.
    fn accept(&mut self, host: u8, to: u8, order: &Order) -> Result<(), Stop>
        requires host { host < self.old.count }
        requires peer { to < self.old.count }
        requires apart { to ≢ host }
        ensures count { self.new.count ≡ self.old.count }
        ensures course { (limit hosts : ℕ) (past : List Event) (slot sport dport : ℕ) (payload : List ℕ) →
            Tells limit hosts past (state self.old) → order.now ≡ orders.Send slot sport dport payload → is_allowed MAX_SLOTS order.now ≡ true →
            Comes limit hosts (appends limit host to (Accept slot sport dport payload) past) result (state self.new) }
    {
        self.ready(host, to)?;
        self.take_on(host, to, order)
    }

    // Gives an order to a connection that sends a datagram, and prints its line.
    fn take_on(&mut self, host: u8, to: u8, order: &Order) -> Result<(), Stop>
        requires host { host < self.old.count }
        requires peer { to < self.old.count }
        requires apart { to ≢ host }
        ensures count { self.new.count ≡ self.old.count }
        ensures told { (limit hosts : ℕ) (past : List Event) (slot sport dport : ℕ) (payload : List ℕ) →
            Tells limit hosts past (state self.old) → order.now ≡ orders.Send slot sport dport payload → is_allowed MAX_SLOTS order.now ≡ true →
            OnOk result (Tells limit hosts (Appended host to (Accept slot sport dport payload) ∷ past) (state self.new)) }
        ensures stop { LacksMemory result }
    {
        or_memory(self.mesh.order(host, to, order))?;
        self.print_newest(host, to)
    }

    // Prints why a send is refused.
    fn refuse_send(
        &mut self,
        host: u8,
        port: u16,
        to: u8,
        dport: u16,
        why: Refusal,
    ) -> Result<(), Stop>
        requires host { host < self.old.count }
        requires peer { to < self.old.count }
        ensures count { self.new.count ≡ self.old.count }
        ensures course { (limit hosts : ℕ) (past : List Event) → Tells limit hosts past (state self.old) →
            Comes limit hosts (prints (line_of_refused host port to dport (refusal_text why)) past) result (state self.new) }
    {
        send_refused_line(&mut self.text, host, port, to, dport, why)?;
        Ok(())
    }

    // Why the socket of a slot can't send so many bytes to a port of a peer, if it can't.
    fn send_refusal(&self, host: u8, slot: u16, to: u8, dport: u16, len: u32) -> Option<Refusal>
        requires host { host < self.now.count }
        requires peer { to < self.now.count }
        requires slot { slot < MAX_SLOTS }
        requires slots { HasSlots self.now.mesh }
        ensures why { (limit hosts : ℕ) (past : List Event) → Tells limit hosts past (state self.now) → slot < next_slot host past →
            option_map refusal_text result ≡ send_refusal hosts host slot to dport len past }
        ensures apart { IfNone result (to ≢ host) }
        ensures short { IfNone result (len ≤ MAX_LENGTH) }
    {
        let buffer = self.hosts[usize::from(host)].sndbuf(slot);
        if let Some(why) = too_long(len, buffer) {
            return Some(why);
        }
        if let Some(why) = no_route(host, to) {
            return Some(why);
        }
        if let Some(why) = self.congested(host, to, dport) {
            return Some(why);
        }
        self.full(host, slot, len, buffer)
    }

    // Why a port of a peer takes nothing, if it doesn't.
    fn congested(&self, host: u8, to: u8, dport: u16) -> Option<Refusal>
        requires host { host < self.now.count }
        requires peer { to < self.now.count }
        ensures { (limit hosts : ℕ) (past : List Event) → Tells limit hosts past (state self.now) →
            option_map refusal_text result ≡ (if option_map_or (λ map. has_port map dport) (last_map_read (journal host to past)) false
            then Some (text_of_congested (maps_read (journal host to past))) else None) }
    {
        let peer = &self.peers[place(host, to)];
        if peer.has(dport) {
            return Some(Refusal::Congested {
                version: peer.version,
            });
        }
        None
    }

    // Why a send buffer takes no more bytes, if it doesn't.
    fn full(&self, host: u8, slot: u16, len: u32, buffer: u32) -> Option<Refusal>
        requires host { host < self.now.count }
        requires slot { slot < MAX_SLOTS }
        requires slots { HasSlots self.now.mesh }
        ensures { (limit hosts : ℕ) (past : List Event) → Tells limit hosts past (state self.now) →
            option_map refusal_text result ≡ (if nat_lt buffer (unacknowledged hosts host slot past + len)
            then Some (text_of_full (unacknowledged hosts host slot past) len buffer) else None) }
    {
        let queued = self.unacknowledged(host, slot);
        let len = u64::from(len);
        let limit = u64::from(buffer);
        if queued + len > limit {
            return Some(Refusal::Full { queued, len, limit });
        }
        None
    }

    // How many bytes of a slot's datagrams are neither acknowledged nor taken back, over all peers.
    fn unacknowledged(&self, host: u8, slot: u16) -> u64
        requires host { host < self.now.count }
        requires slot { slot < MAX_SLOTS }
        requires slots { HasSlots self.now.mesh }
        ensures bytes { (limit hosts : ℕ) (past : List Event) → Tells limit hosts past (state self.now) →
            result ≡ unacknowledged hosts host slot past }
        ensures few { result ≤ 8 * 2 ^ 52 }
    {
        let mut bytes = 0;
        for peer in 0..self.count {
            bytes += self.unacknowledged_by(host, peer, slot);
        }
        bytes
    }

    // How many of those bytes went to a peer. None went to the host itself.
    fn unacknowledged_by(&self, host: u8, peer: u8, slot: u16) -> u64
        requires host { host < self.now.count }
        requires peer { peer < self.now.count }
        requires slot { slot < MAX_SLOTS }
        requires slots { HasSlots self.now.mesh }
        ensures bytes { (limit hosts : ℕ) (past : List Event) → Tells limit hosts past (state self.now) →
            result ≡ (if peer == host then 0 else alive_bytes slot (journal host peer past)) }
        ensures few { result ≤ 2 ^ 52 }
    {
        if peer == host {
            return 0;
        }
        self.mesh.unacked_bytes(host, peer, slot)
    }
}
