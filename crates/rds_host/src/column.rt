//! What a host has for one peer, while it is made.
ghost use Rattle.std.specs.Prelude.{◌≡◌, ◌≤◌, ◌-◌, ◌++◌, ◌∷◌, [], All, IfOk, IfSome, OnOk, length, reverse};
ghost use Rattle.std.specs.Arc.{arc_value};
ghost use Rattle.rds_model.specs.declared.entry.TheConstants.{MAX_SLOTS};
ghost use Rattle.rds_model.specs.declared.journal.TheConstants.{MAX_ENTRIES, MIN_ENTRIES};
ghost use Rattle.rds_line_channel.specs.Streams.{AreNumbered, IsUnused};
ghost use Rattle.rds_line_channel.specs.Channel.{new_channel};
ghost use Rattle.rds_mail.specs.Passes.{first_putter};
ghost use Rattle.rds_host.specs.Ties.{IsFront, IsNextOf, lane_way, new_putter, popped, putters_from, with_box};

use crate::seats::Seats;
use rds_fmap::{Reader, Writer, pair};
use rds_line::{Line, LineParts};
use rds_line_parts::{Boxes, LineOrders, SlotBox};
use rds_link::End;
use rds_mail::{Asked, Mail, PutPass};
use rds_socket::Route;
use rds_wire::Memory;
use std::alloc::Global;
use std::marker::Model;
use std::sync::Arc;

/// The queue of the orders for a peer with a putter for each slot, the peer's map with a reader for each slot, and the
/// mailboxes of the slots as far as these are made. The putters and readers of later slots stand before those of earlier ones.
/// Contracts see the way to the peer, the putters that are left, and those at the mailboxes.
pub(crate) struct Column {
    peer: u32,
    queue: Arc<Mail<Asked>>,
    orders: LineOrders,
    passes: Vec<PutPass<Asked>>,
    map: Writer,
    readers: Vec<Reader>,
    boxes: Vec<SlotBox>,
}

// By hand, so that one call drops it wherever it is let go, and no function that owns one drops each field.
impl Drop for Column {
    fn drop(self) {
        let Self {
            peer: _,
            queue: _queue,
            orders: _orders,
            passes: _passes,
            map: _map,
            readers: _readers,
            boxes: _boxes,
        } = self;
    }
}

impl Model for Column {
    ghost use Rattle.std.specs.Arc.{arc_value};
    ghost use Rattle.rds_host.specs.Ties.{ColumnView, IsColumn};

    ghost Value = { ColumnView };

    ghost view = { λ c. record {
      way = record { peer = c.peer; mail = (arc_value c.queue).line; pair = c.map.pair };
      passes = c.passes.items;
      boxes = c.boxes.items;
    } };

    ghost invariant = { λ c. IsColumn (arc_value c.queue).line c.orders c.passes.items c.map c.readers.items c.boxes.items };
}

impl Column {
    /// What a host of so many slots has for the peer before a slot is made.
    pub(crate) fn new(alloc: Global, peer: u32, slots: u16) -> Result<Column, Memory>
        requires { 1 ≤ slots }
        ensures peer { IfOk result (λ c. c.way.peer ≡ peer) }
        ensures passes { IfOk result (λ c. c.passes ≡ reverse (putters_from c.way.mail slots 0 slots)) }
        ensures boxes { IfOk result (λ c. c.boxes ≡ []) }
    {
        let (mail, put, get) = Mail::new(alloc)?;
        let queue = Arc::new(alloc, mail)?;
        let (map, readers) = pair(alloc, u32::from(slots))?;
        Ok(Column {
            peer,
            orders: LineOrders::new(Arc::try_clone(&queue)?, get),
            passes: passes(alloc, &queue, put, slots)?,
            queue,
            map,
            readers,
            boxes: Vec::with_capacity(alloc, usize::from(slots))?,
        })
    }

    /// The route of the next slot to the peer.
    pub(crate) fn route(&mut self) -> Result<Route<Reader>, Memory>
        ensures popped { OnOk result (self.new ≡ popped self.old) }
        ensures next { IfOk result (λ lane. IsNextOf self.old lane.pass) }
        ensures way { IfOk result (λ lane. lane_way lane ≡ self.old.way) }
        ensures put { IfOk result (λ lane. lane.pass.put ≡ []) }
    {
        let orders = Arc::try_clone(&self.queue)?;
        let Some((pass, map)) = take_last(&mut self.passes, &mut self.readers) else {
            return Err(Memory);
        };
        Ok(Route {
            peer: self.peer,
            orders,
            pass,
            map,
        })
    }

    /// The putter at the mailbox of the next slot.
    pub(crate) fn add_box(&mut self, held: SlotBox) -> Result<(), Memory>
        requires { held.put ≡ [] }
        ensures { OnOk result (self.new ≡ with_box held self.old) }
    {
        self.boxes.push(held)?;
        Ok(())
    }

    /// The line of the host `me` to the peer, over these streams.
    pub(crate) fn into_line<E: End>(
        self,
        alloc: Global,
        me: u32,
        seats: Seats,
        streams: Vec<(u32, E)>,
        limit: u32,
    ) -> Result<Line<E, Writer>, Memory>
        requires boxes { length self.boxes ≡ (arc_value seats.table).slots }
        requires looks { seats.seat.view.steps ≡ [] }
        requires numbered { AreNumbered streams.items }
        requires unused { All (λ stream. IsUnused E.means stream.1) streams.items }
        requires least { MIN_ENTRIES ≤ limit }
        requires most { limit ≤ MAX_ENTRIES }
        ensures channel { IfOk result (λ line. line.channel ≡ new_channel me self.way.peer MAX_SLOTS limit streams.items) }
        ensures mail { IfOk result (λ line. line.orders.mail ≡ self.way.mail) }
        ensures joined { IfOk result (λ line. line.orders.joined ≡ []) }
        ensures pair { IfOk result (λ line. line.map.pair ≡ self.way.pair) }
        ensures boxes { IfOk result (λ line. line.boxes ≡ self.boxes) }
        ensures ports { IfOk result (λ line. line.ports.table ≡ arc_value seats.table) }
        ensures words { IfOk result (λ line. line.words.table ≡ arc_value seats.meter) }
        ensures looked { IfOk result (λ line. line.ports.view.steps ≡ []) }
        ensures own { IfOk result (λ line. line.words ≡ seats.own) }
    {
        let Column {
            peer,
            queue: _queue,
            orders,
            passes: _passes,
            map,
            readers: _readers,
            boxes,
        } = self;
        let (ports, words) = seats.into_line();
        let parts = LineParts {
            me,
            peer,
            streams,
            orders,
            inboxes: Boxes::new(boxes),
            ports,
            words,
            map,
        };
        Line::new(alloc, parts, limit)
    }
}

// Takes the last putter and the last reader.
fn take_last(
    passes: &mut Vec<PutPass<Asked>>,
    readers: &mut Vec<Reader>,
) -> Option<(PutPass<Asked>, Reader)>
    ensures pass { IfSome result (λ last. passes.old.items ≡ passes.new.items ++ last.0 ∷ []) }
    ensures reader { IfSome result (λ last. readers.old.items ≡ readers.new.items ++ last.1 ∷ []) }
    ensures passes { IsFront passes.new.items passes.old.items }
    ensures readers { IsFront readers.new.items readers.old.items }
{
    let pass = passes.pop()?;
    let map = readers.pop()?;
    Some((pass, map))
}

// A putter for each of so many slots: that of slot 0 is the queue's first and stands last.
fn passes(
    alloc: Global,
    queue: &Mail<Asked>,
    mut put: PutPass<Asked>,
    slots: u16,
) -> Result<Vec<PutPass<Asked>>, Memory>
    requires some { 1 ≤ slots }
    requires first { put ≡ first_putter queue.now.line }
    ensures { IfOk result (λ passes. passes.items ≡ reverse (putters_from queue.now.line slots 0 slots)) }
{
    let mut passes = Vec::with_capacity(alloc, usize::from(slots))?;
    add_later(&mut passes, queue, &mut put, slots)?;
    passes.reverse();
    passes.push(put)?;
    Ok(passes)
}

// Adds a new putter for each slot but the first.
fn add_later(
    passes: &mut Vec<PutPass<Asked>>,
    queue: &Mail<Asked>,
    put: &mut PutPass<Asked>,
    slots: u16,
) -> Result<(), Memory>
    requires some { 1 ≤ slots }
    requires none { passes.old.items ≡ [] }
    requires first { put.old ≡ first_putter queue.now.line }
    ensures passes { OnOk result (passes.new.items ≡ putters_from queue.now.line slots 1 (slots - 1)) }
    ensures put { OnOk result (put.new ≡ new_putter queue.now.line slots 0) }
{
    for _ in 1..slots {
        passes.push(queue.split(put))?;
    }
    Ok(())
}
