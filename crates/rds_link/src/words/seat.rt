ghost use Rattle.std.specs.Prelude.{◌≡◌, ◌↔◌, ◌+◌, ◌≤◌, ◌<◌, ℕ, IfOk, IsTrue, true};
ghost use Rattle.rds_link.specs.Seats.{knowing, fresh, after_draw, after_look, after_shut, FitsKnown, KnowsOther};

use crate::words::plays::{Draw, Halving, Look, Shut};
use crate::words::rule::StreamRule;
use crate::words::view::View;
use atomic_table::{Seat, Table};
use rds_wire::Memory;
use std::alloc::Global;
use std::marker::Model;
use std::sync::Arc;

// The word that numbers the ends, and the word that says which end shut first: 0 or its number.
const DRAWN: usize = 0;

pub(crate) const FIRST: usize = 1;

pub(crate) type Words = Table<(), View, (), StreamRule, Global>;

/// An end's token of the two words of its stream. Contracts see which words, and what the end knows of them.
#[derive(Drop)]
pub struct EndSeat {
    pub(crate) words: Arc<Words, Global>,
    pub(crate) seat: Seat<(), View>,
    pub(crate) number: u64,
}

impl Model for EndSeat {
    ghost use Rattle.std.specs.Prelude.{◌≡◌, ◌≤◌, [], true};
    ghost use Rattle.std.specs.Arc.{arc_value};
    ghost use Rattle.rds_link.specs.Seats.{StreamSeat};

    ghost Value = { StreamSeat };

    ghost view = { λ s. record { words = s.seat.table_id; view = s.seat.me.0 } };

    ghost invariant = { λ s. (s.seat.table_id ≡ (arc_value s.words).shared.table_id) × (s.seat.table_id.words ≡ 2) × (s.seat.me.1 ≡ []) × (s.number ≡ s.seat.me.0.number) × (1 ≤ s.number) × (s.number ≤ 2) × (s.seat.me.0.shut ≡ true → 1 ≤ s.seat.me.0.first) };
}

impl EndSeat {
    /// The seats of the two ends of a new stream, which have drawn 1 and 2.
    pub fn pair(alloc: Global) -> Result<(EndSeat, EndSeat), Memory>
        ensures words { IfOk result (λ r. r.1.words ≡ r.0.words) }
        ensures first { IfOk result (λ r. r.0.view ≡ fresh 1 0 0) }
        ensures second { IfOk result (λ r. r.1.view ≡ fresh 2 0 1) }
    {
        let (table, mut seat) = Words::of_words(alloc, &[0, 0], &())?;
        let number = draw(&table, &mut seat);
        let mut other_seat = table.shared.split_seat::<Halving>(&mut seat);
        let other_number = draw(&table, &mut other_seat);
        let words = Arc::new(alloc, table)?;
        let other = EndSeat {
            words: Arc::try_clone(&words)?,
            seat: other_seat,
            number: other_number,
        };
        let own = EndSeat {
            words,
            seat,
            number,
        };
        Ok((own, other))
    }
}

// The number drawn by one fetch and add.
fn draw(table: &Words, seat: &mut Seat<(), View>) -> u64
    requires words { (seat.old.table_id ≡ table.now.shared.table_id) × (table.now.shared.table_id.words ≡ 2) }
    requires draws { (seat.old.me.0.number ≡ 0) × (1 ≤ seat.old.me.0.draws) }
    ensures words { seat.new.table_id ≡ seat.old.table_id }
    ensures seat { seat.new.me ≡ (after_draw seat.old.me.0 result, seat.old.me.1) }
    ensures number { (seat.old.me.0.floor < result) × (result + seat.old.me.0.draws ≤ 3) }
{
    table.shared.fetch_add::<Draw>(seat, DRAWN, 1) + 1
}

impl EndSeat {
    /// Whether one load finds that the other end shut first.
    pub fn look(&mut self) -> bool
        ensures seat { self.new ≡ knowing self.old (after_look self.old.view self.new.view.first) }
        ensures found { FitsKnown self.old.view self.new.view.first }
        ensures other { IsTrue result ↔ KnowsOther self.new.view }
    {
        let shared = &self.words.shared;
        let found = shared.load::<Look>(&mut self.seat, FIRST);
        found != 0 && found != self.number
    }

    /// Shuts the end by one compare and exchange. The end shut first where it finds 0.
    pub fn shut(&mut self)
        ensures seat { self.new ≡ knowing self.old (record self.old.view { first = self.new.view.first; shut = true }) }
        ensures found { (n : ℕ) × (self.new.view ≡ after_shut self.old.view n) × FitsKnown self.old.view n }
        ensures again { self.old.view.shut ≡ true → self.new ≡ self.old }
    {
        let shared = &self.words.shared;
        shared.compare_exchange::<Shut>(&mut self.seat, FIRST, 0, self.number);
    }
}
