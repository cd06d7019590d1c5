//! A host of one slot, whose socket is whoever holds the host.
ghost use Rattle.std.specs.Prelude.{◌≡◌, ◌≤◌, [], true, false, All, IfOk, IfSome, IfNone, length};
ghost use Rattle.std.specs.Arc.{arc_value};
ghost use Rattle.rds_fmap.specs.Readers.{WriterView};
ghost use Rattle.rds_line_channel.specs.Streams.{AreNumbered, IsUnused};
ghost use Rattle.rds_mail.specs.Numbers.{Number};
ghost use Rattle.rds_mail.specs.Orders.{IsAsked};
ghost use Rattle.rds_mail.specs.Passes.{after_get, after_put};
ghost use Rattle.rds_model.specs.Alive.{alive_numbers};
ghost use Rattle.rds_model.specs.declared.entry.TheConstants.{MAX_SLOTS};
ghost use Rattle.rds_model.specs.declared.journal.TheConstants.{MAX_ENTRIES, MIN_ENTRIES};
ghost use Rattle.rds_line_channel.specs.Channel.{new_channel};
ghost use Rattle.rds_line.specs.Stays.{LineStays};
ghost use Rattle.rds_line.specs.Turns.{HasMoved, IsIdleTurn, IsOverTurn};
ghost use Rattle.rds_line.specs.declared.outcome.Turn.TheVariants as turn;

use rds_bindtab::BindTable;
use rds_fmap::{Writer, pair};
use rds_line::{Line, LineParts, Turn};
use rds_line_parts::{Boxes, LineOrders, LinePorts, LineWords, SlotBox};
use rds_link::End;
use rds_mail::{Asked, GetPass, Mail, PutPass};
use rds_meter::Meter;
use rds_model::{Datagram, Order};
use rds_wire::Memory;
use std::alloc::Global;
use std::marker::Model;
use std::sync::{Arc, Wait};

/// The port that a host's only slot holds.
pub const PORT: u16 = 4001;

/// A host: its line, the right to give it orders, and the mailbox of its slot, which holds the port `PORT`. Contracts see the line,
/// the orders that were put and the datagrams that were got.
pub struct LineHost<E: End> {
    line: Line<E, Writer>,
    queue: Arc<Mail<Asked>>,
    asks: PutPass<Asked>,
    mailbox: Arc<Mail<Datagram>>,
    gets: GetPass<Datagram>,
}

impl<E: End> Model for LineHost<E> {
    ghost use Rattle.std.specs.Prelude.{◌≡◌};
    ghost use Rattle.std.specs.Arc.{arc_value};
    ghost use Rattle.rds_test_hosts.specs.HostView.{HostView};

    ghost Value = { HostView E };

    ghost view = { λ h. record { line = h.line; asks = h.asks; gets = h.gets } };

    ghost invariant = { λ h. (h.asks.mail ≡ (arc_value h.queue).line) × (h.gets.mail ≡ (arc_value h.mailbox).line) };
}

// By hand, so that one call drops it wherever it is let go, and no function that owns one drops each field.
impl<E: End> Drop for LineHost<E> {
    fn drop(self) {
        let Self {
            line: _line,
            queue: _queue,
            asks: _asks,
            mailbox: _mailbox,
            gets: _gets,
        } = self;
    }
}

impl<E: End> LineHost<E> {
    /// A host with this address and peer, and these streams to it. Its journal may have `limit` entries.
    ///
    /// # Errors
    ///
    /// Where there is no memory for its tables.
    pub fn new(
        alloc: Global,
        me: u32,
        peer: u32,
        streams: Vec<(u32, E)>,
        limit: u32,
    ) -> Result<LineHost<E>, Memory>
        requires least { MIN_ENTRIES ≤ limit }
        requires most { limit ≤ MAX_ENTRIES }
        requires numbered { AreNumbered streams.items }
        requires unused { All (λ stream. IsUnused E.means stream.1) streams.items }
        ensures channel { IfOk result (λ host. host.line.channel ≡ new_channel me peer MAX_SLOTS limit streams.items) }
        ensures asked { IfOk result (λ host. host.asks.put ≡ []) }
        ensures got { IfOk result (λ host. host.gets.got ≡ []) }
    {
        let (queue, asks, orders) = orders(alloc)?;
        let (mailbox, gets, boxes) = boxes(alloc)?;
        let (map, _readers) = pair(alloc, 1)?;
        let parts = LineParts {
            me,
            peer,
            streams,
            orders,
            inboxes: boxes,
            ports: ports(alloc)?,
            words: words(alloc)?,
            map,
        };
        Ok(LineHost {
            line: Line::new(alloc, parts, limit)?,
            queue,
            asks,
            mailbox,
            gets,
        })
    }

    /// Gives the line an order. `false` where there is no memory for it.
    pub fn ask(&mut self, rt: &impl Wait, order: Order) -> bool
        requires { IsAsked order }
        ensures put { result ≡ true → self.new.asks ≡ after_put self.old.asks order }
        ensures none { result ≡ false → self.new.asks ≡ self.old.asks }
        ensures rest { self.new ≡ record self.old { asks = self.new.asks } }
    {
        self.queue
            .put(rt, &mut self.asks, Asked::new(order))
            .is_ok()
    }

    /// The datagram that waits first in the mailbox.
    pub fn next(&mut self, rt: &impl Wait) -> Option<Datagram>
        ensures some { IfSome result (λ datagram. (number : Number) × (self.new.gets ≡ after_get self.old.gets number datagram)) }
        ensures none { IfNone result (self.new.gets ≡ self.old.gets) }
        ensures rest { self.new ≡ record self.old { gets = self.new.gets } }
    {
        self.mailbox.get(rt, &mut self.gets)
    }

    /// One turn of the line.
    pub fn turn(&mut self, rt: &impl Wait) -> Turn
        ensures stays { LineStays E.means (λ (w : WriterView). w.pair) self.old.line self.new.line }
        ensures rest { self.new ≡ record self.old { line = self.new.line } }
        ensures moved { result ≡ turn.Moved → HasMoved E.means self.old.line self.new.line }
        ensures idle { result ≡ turn.Idle → IsIdleTurn E.means self.old.line self.new.line }
        ensures over { result ≡ turn.Over → IsOverTurn self.old.line self.new.line }
    {
        self.line.turn(rt)
    }

    /// How many datagrams that the line accepted are neither acknowledged nor taken back.
    pub fn unacked(&self) -> u32
        ensures { result ≡ length (alive_numbers self.now.line.channel.conn.log.past) }
    {
        self.line.unacked()
    }
}

// A queue of orders, the right to put there, and its getter.
fn orders(alloc: Global) -> Result<(Arc<Mail<Asked>>, PutPass<Asked>, LineOrders), Memory>
    ensures tied { IfOk result (λ r. r.1.mail ≡ (arc_value r.0).line) }
    ensures put { IfOk result (λ r. r.1.put ≡ []) }
    ensures got { IfOk result (λ r. r.2.got ≡ []) }
{
    let (mail, put, get) = Mail::new(alloc)?;
    let mail = Arc::new(alloc, mail)?;
    let orders = LineOrders::new(Arc::try_clone(&mail)?, get);
    Ok((mail, put, orders))
}

// A mailbox, the right to get from it, and the mailboxes of a line of which it is the only one.
fn boxes(alloc: Global) -> Result<(Arc<Mail<Datagram>>, GetPass<Datagram>, Boxes), Memory>
    ensures tied { IfOk result (λ r. r.1.mail ≡ (arc_value r.0).line) }
    ensures got { IfOk result (λ r. r.1.got ≡ []) }
    ensures one { IfOk result (λ r. length r.2 ≡ 1) }
    ensures put { IfOk result (λ r. All (λ box. box.put ≡ []) r.2) }
{
    let (mail, put, get) = Mail::new(alloc)?;
    let mail = Arc::new(alloc, mail)?;
    let mut boxes = Vec::with_capacity(alloc, 1)?;
    boxes.push(SlotBox::new(Arc::try_clone(&mail)?, put))?;
    Ok((mail, get, Boxes::new(boxes)))
}

// A port table of one slot, which holds the port.
fn ports(alloc: Global) -> Result<LinePorts, Memory>
    ensures slots { IfOk result (λ p. p.table.slots ≡ 1) }
    ensures looks { IfOk result (λ p. p.view.steps ≡ []) }
{
    let (table, mut holder) = BindTable::new(alloc, 1)?;
    let looker = table.split(&mut holder);
    if table.draw(&mut holder).is_ok() {
        let _claimed = table.claim(&mut holder, PORT);
    }
    Ok(LinePorts::new(Arc::new(alloc, table)?, looker))
}

// A meter of one slot.
fn words(alloc: Global) -> Result<LineWords, Memory>
    ensures steps { IfOk result (λ w. w.view.steps ≡ []) }
    ensures checks { IfOk result (λ w. w.view.checks ≡ []) }
{
    let (meter, mut seat) = Meter::new(alloc, 1)?;
    let mut socket = meter.split(&mut seat);
    meter.own(&mut socket, 0);
    Ok(LineWords::new(Arc::new(alloc, meter)?, seat))
}
