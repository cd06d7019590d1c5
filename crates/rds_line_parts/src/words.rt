//! The steps of a line on the meter.
ghost use Rattle.std.specs.Prelude.{◌≡◌, ℕ, ◌+◌, ◌/◌, ◌<◌, ◌≤◌, ◌^◌, ◌||◌, nat_lt, [], ◌∷◌};
ghost use Rattle.std.specs.Arc.{arc_value};
ghost use Rattle.rds_model.specs.declared.entry.TheConstants.{MAX_SLOTS};
ghost use Rattle.rds_cong.specs.declared.map.TheConstants.{WORDS};
ghost use Rattle.rds_meter.specs.Places.{freed_word, put_word, taken_word, change_word, part};
ghost use Rattle.rds_meter.specs.Seats.{knowing};
ghost use Rattle.rds_meter.specs.declared.view.Step.TheVariants.{Added, Loaded};
ghost use Rattle.rds_line_parts.specs.Words.{IsAtRest, after_steps, AddsTo};
ghost use Rattle.rds_line_parts.specs.Own.{own_word};
ghost use Rattle.rds_line_parts.specs.Delivery.{lowering, IsSecondLook, IsDelivery};

use crate::count::count_put;
use crate::ports::LinePorts;
use rds_meter::{Mark, Meter, MeterSeat};
use std::marker::Model;
use std::sync::Arc;

/// A line's seat at its host's meter, beside the meter. Contracts see the seat.
#[derive(Drop)]
pub struct LineWords {
    meter: Arc<Meter>,
    seat: MeterSeat,
}

impl Model for LineWords {
    ghost use Rattle.std.specs.Prelude.{◌≡◌};
    ghost use Rattle.std.specs.Arc.{arc_value};
    ghost use Rattle.rds_meter.specs.Seats.{MeterSeat};
    ghost use Rattle.rds_line_parts.specs.Words.{IsAtRest};

    ghost Value = { MeterSeat };

    ghost view = { λ w. w.seat };

    ghost invariant = { λ w. (w.seat.table ≡ arc_value w.meter) × IsAtRest w.seat.view };
}

impl LineWords {
    /// The meter, and a seat that is at it and is in no check.
    pub fn new(meter: Arc<Meter>, seat: MeterSeat) -> LineWords
        requires table { seat.table ≡ arc_value meter }
        requires rest { IsAtRest seat.view }
        ensures { result ≡ seat }
    {
        LineWords { meter, seat }
    }

    /// Both, as they are now.
    pub fn into_parts(self) -> (Arc<Meter>, MeterSeat)
        ensures seat { result.1 ≡ self }
        ensures table { self.table ≡ arc_value result.0 }
    {
        let LineWords { meter, seat } = self;
        (meter, seat)
    }

    /// Changes nothing: what the seat keeps.
    pub fn known(&self)
        ensures { IsAtRest self.now.view }
    {
        let _ = &self.seat;
    }

    /// The bytes taken out of a slot's mailbox, as one load found them.
    pub fn taken(&mut self, slot: u16) -> u64
        requires { slot < MAX_SLOTS }
        ensures { self.new ≡ knowing self.old (after_steps self.old.view (Loaded (taken_word slot) result ∷ [])) }
    {
        self.meter.taken(&mut self.seat, slot)
    }

    /// Counts bytes of a slot that were freed by one addition, and answers all of that slot after it.
    pub fn free(&mut self, slot: u16, n: u32) -> u64
        requires slot { slot < MAX_SLOTS }
        requires part { part (freed_word slot) self.old.view.steps + n ≤ 2 ^ 52 }
        ensures { self.new ≡ knowing self.old (after_steps self.old.view (Added (freed_word slot) n result ∷ [])) }
    {
        self.meter.free_add(&mut self.seat, slot, n)
    }

    /// The change number of the host's own map, as one load found it.
    pub fn change(&mut self) -> u64
        ensures { self.new ≡ knowing self.old (after_steps self.old.view (Loaded change_word result ∷ [])) }
    {
        self.meter.change(&mut self.seat)
    }

    /// A word of the host's own congestion map, as one load found it: port p is bit p mod 64 of word p div 64.
    pub fn word(&mut self, i: usize) -> u64
        requires { i < WORDS }
        ensures { self.new ≡ knowing self.old (after_steps self.old.view (Loaded (own_word i) result ∷ [])) }
    {
        self.meter.word(&mut self.seat, i)
    }

    /// Counts a datagram of n bytes that was put into the slot's mailbox for the port: adds them to the put word, and checks whether
    /// the port is congested. Where a limit is set and more bytes are queued than it allows, the port's bit is raised, and then
    /// lowered again where by now fewer are queued than half the limit, or the slot holds the port no more.
    pub fn deliver(&mut self, ports: &mut LinePorts, slot: u16, port: u16, n: u32)
        requires slot { slot < MAX_SLOTS }
        requires part { part (put_word slot) self.old.view.steps + n ≤ 2 ^ 52 }
        ensures delivery { IsDelivery slot port n self.old self.new ports.old ports.new }
        ensures put { AddsTo (put_word slot) n self.old.view self.new.view }
    {
        let mark = count_put(&self.meter, &mut self.seat, slot, port, n);
        if mark.set {
            self.look_again(ports, slot, &mark);
        }
    }

    // What follows a raise: the reader may have taken datagrams, or the socket have closed, before it.
    fn look_again(&mut self, ports: &mut LinePorts, slot: u16, mark: &Mark)
        requires { slot < MAX_SLOTS }
        ensures { IsSecondLook slot mark.now self.old self.new ports.old ports.new }
    {
        let taken = self.taken(slot);
        let holder = ports.look(mark.port);
        let found = Mark {
            set: false,
            taken,
            ..*mark
        };
        self.clear(&found, holder != Some(slot));
    }

    // Lowers the bit where the mark is below half its limit, or the port has moved.
    fn clear(&mut self, mark: &Mark, moved: bool)
        ensures { (number : ℕ) × (self.new ≡ knowing self.old (after_steps self.old.view (lowering (nat_lt mark.now.put (mark.now.taken + mark.now.limit / 2) || moved) mark.now.port number))) }
    {
        if mark.is_below_half() {
            self.meter.lower(&mut self.seat, mark);
            self.meter.bump(&mut self.seat);
        } else if moved {
            self.meter.lower_changed(&mut self.seat, mark.port);
            self.meter.bump(&mut self.seat);
        }
    }
}
