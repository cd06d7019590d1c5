//! How a turn takes an order of a socket.
ghost use Rattle.std.specs.Prelude.{◌≡◌, ◌≢◌, ◌⊎◌, ℕ, true, false, Some, Ok, Err, OnOk, OnErr, length};
ghost use Rattle.rds_model.specs.declared.journal.JournalError.TheVariants as errors;
ghost use Rattle.rds_model.specs.declared.order.Order.TheVariants as orders;
ghost use Rattle.rds_conn.specs.Connection.{IsReady, stream_of};
ghost use Rattle.rds_conn.specs.Orders.{IsOrderFor};
ghost use Rattle.rds_line_channel.specs.Changes.{AppendsOrder, CutsStream, FreesReleased};
ghost use Rattle.rds_line_channel.specs.Channel.{noted_cut};
ghost use Rattle.rds_line.specs.Line.{IsFull, IsOpenOrLast, line_past, pulls_in};
ghost use Rattle.rds_line.specs.Stays.{LineStays};
ghost use Rattle.rds_line.specs.Steps.{KeepsArrived, KeepsOut, KeepsUnwritten};
ghost use Rattle.rds_line.specs.Turns.{FindsNoOrder, TakesOrder};

use super::Line;
use rds_fmap::MapWriter;
use rds_line_channel::Channel;
use rds_link::End;
use rds_model::{JournalError, Order};
use std::sync::Wait;

impl<E: End, M: MapWriter> Line<E, M> {
    // Takes the first order, and answers whether there was one. Room for what it does is made before it is taken. Where the answer
    // is that there was none, the queue was looked at, and that look was counted.
    pub(super) fn take_order<W: Wait>(&mut self, rt: &W) -> Result<bool, JournalError>
        requires last { IsOpenOrLast self.old }
        ensures stays { LineStays E.means M.pair self.old self.new }
        ensures own { self.new.own ≡ self.old.own }
        ensures pulls { pulls_in (line_past self.new) ≡ pulls_in (line_past self.old) }
        ensures took { result ≡ Ok true → TakesOrder self.old.orders self.new.orders }
        ensures none { result ≡ Ok false → FindsNoOrder self.old.orders self.new.orders }
        ensures still { result ≡ Ok false → (line_past self.new ≡ line_past self.old) × (self.new.channel.streams ≡ self.old.channel.streams) }
        ensures arrived { OnOk result (KeepsArrived self.old.channel self.new.channel) }
        ensures unwritten { OnOk result (KeepsUnwritten self.old.channel self.new.channel) }
        ensures out { OnOk result (KeepsOut self.old.channel self.new.channel) }
        ensures err { OnErr result ((self.new.orders ≡ self.old.orders) × (line_past self.new ≡ line_past self.old)) }
        ensures spent { (entries : ℕ) → result ≡ Err (errors.Spent entries) → IsFull entries self.new }
    {
        self.channel.reserve()?;
        if self.channel.reserve_cut().is_err() {
            return Err(JournalError::Memory);
        }
        self.channel.known();
        let Some(order) = self.orders.take_order(rt) else {
            return Ok(false);
        };
        obey(&mut self.channel, order);
        Ok(true)
    }
}

// Does what an order asks: a cut ends the open stream, and any other goes to the connection.
fn obey<E: End>(channel: &mut Channel<E>, order: Order)
    requires ready { IsReady channel.old.conn }
    requires room { channel.old.cuts.has_room ≡ true }
    requires last { (channel.old.streams.is_open ≡ true) ⊎ (channel.old.streams.opened ≡ length channel.old.streams.list) }
    requires allowed { order ≢ orders.Cut → IsOrderFor channel.old.conn.slots order }
    ensures shut { order ≡ orders.Cut → (number : ℕ) → stream_of channel.old.conn ≡ Some number →
        CutsStream E.means number channel.old channel.new }
    ensures late { order ≡ orders.Cut → channel.old.streams.is_open ≡ false →
        channel.new ≡ record channel.old { cuts = noted_cut channel.old.cuts 0 } }
    ensures entry { order ≢ orders.Cut → AppendsOrder order channel.old channel.new }
    ensures freed { order ≢ orders.Cut → FreesReleased channel.old channel.new }
{
    match order {
        Order::Cut => channel.cut(),
        _ => channel.order(order),
    }
}
