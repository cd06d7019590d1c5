//! How a channel opens a stream, cuts or ends it, and takes an order.
ghost use Rattle.std.specs.Prelude.{◌≡◌, ◌⊎◌, ℕ, false, true, Some, IsTrue, length};
ghost use Rattle.rds_conn.specs.Connection.{IsReady, stream_of};
ghost use Rattle.rds_conn.specs.Orders.{IsOrderFor};
ghost use Rattle.rds_line_channel.specs.Streams.{EndAt, HasSaidOver, newest_place};
ghost use Rattle.rds_line_channel.specs.Channel.{noted_cut};
ghost use Rattle.rds_line_channel.specs.Changes.{CutsStream, FreesReleased, OpensNext, ShutsStream, AppendsOrder};

use super::{Channel, give_up};
use rds_link::End;
use rds_model::Order;

impl<E: End> Channel<E> {
    /// Opens the next stream, where none is open, and answers whether there was one.
    pub fn open_next(&mut self) -> bool
        requires ready { IsReady self.old.conn }
        requires closed { self.old.streams.is_open ≡ false }
        ensures opened { IsTrue result → OpensNext self.old self.new }
        ensures none { result ≡ false → (self.new ≡ self.old) × (self.old.streams.opened ≡ length self.old.streams.list) }
    {
        self.known();
        match self.streams.open_next() {
            Some(number) => {
                self.conn.open(number);
                true
            }
            None => false,
        }
    }

    /// Takes a cut: the open stream is shut, if one is. A cut that finds none open comes where no further stream is left.
    pub fn cut(&mut self)
        requires ready { IsReady self.old.conn }
        requires room { self.old.cuts.has_room ≡ true }
        requires last { (self.old.streams.is_open ≡ true) ⊎ (self.old.streams.opened ≡ length self.old.streams.list) }
        ensures on { (number : ℕ) → stream_of self.old.conn ≡ Some number → CutsStream E.means number self.old self.new }
        ensures off { self.old.streams.is_open ≡ false → self.new ≡ record self.old { cuts = noted_cut self.old.cuts 0 } }
    {
        self.known();
        match self.conn.stream() {
            Some(number) => {
                self.conn.shut();
                give_up(&mut self.out, &mut self.piece, &mut self.streams);
                self.cuts.push(number);
            }
            None => self.cuts.push(0),
        }
    }

    /// Ends the open stream, whose end has said that it is over.
    pub fn end_over(&mut self)
        requires ready { IsReady self.old.conn }
        requires open { self.old.streams.is_open ≡ true }
        requires over { EndAt (HasSaidOver E.means) (newest_place self.old.streams) self.old.streams.list }
        ensures shut { (number : ℕ) → stream_of self.old.conn ≡ Some number → ShutsStream E.means number self.old self.new }
        ensures cuts { self.new.cuts ≡ self.old.cuts }
    {
        self.known();
        self.conn.shut();
        give_up(&mut self.out, &mut self.piece, &mut self.streams);
    }

    /// Takes an order of a socket that isn't a cut.
    pub fn order(&mut self, order: Order)
        requires ready { IsReady self.old.conn }
        requires allowed { IsOrderFor self.old.conn.slots order }
        ensures entry { AppendsOrder order self.old self.new }
        ensures freed { FreesReleased self.old self.new }
    {
        self.streams.known();
        self.conn.order_uncounted(order);
    }
}
