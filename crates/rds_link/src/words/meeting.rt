//! What two ends tell each other once one caller has both.
ghost use Rattle.std.specs.Prelude.{◌≡◌, ℕ};
ghost use Rattle.rds_link.specs.Seats.{knowing, heard, FitsKnown, IsEnd};

use crate::words::plays::{Hearing, Learn, Noting};
use crate::words::seat::{EndSeat, FIRST};

impl EndSeat {
    /// Each end is told what the other knows of the end that shut first.
    pub fn meet(a: &mut EndSeat, b: &mut EndSeat)
        requires { a.old.words ≡ b.old.words }
        ensures first { a.new ≡ knowing a.old (heard a.old.view b.old.view) }
        ensures second { b.new ≡ knowing b.old (heard b.old.view a.old.view) }
        ensures there { (n : ℕ) × FitsKnown a.new.view n }
        ensures back { (n : ℕ) × FitsKnown b.new.view n }
        ensures ends { IsEnd a.new.view × IsEnd b.new.view }
    {
        a.hear(b);
        b.hear(a);
        a.learn();
        b.learn();
    }

    // It is told what the other end knows.
    fn hear(&mut self, other: &mut EndSeat)
        requires { self.old.words ≡ other.old.words }
        ensures told { self.new ≡ knowing self.old (heard self.old.view other.old.view) }
        ensures other { other.new ≡ other.old }
    {
        let note = other.words.shared.split_seat::<Noting>(&mut other.seat);
        let shared = &self.words.shared;
        shared.join_seat::<Hearing>(&mut self.seat, note);
    }

    // A load that changes nothing, and finds a number that fits what the end knows.
    fn learn(&mut self)
        ensures same { self.new ≡ self.old }
        ensures found { (n : ℕ) × FitsKnown self.old.view n }
        ensures end { IsEnd self.old.view }
    {
        let shared = &self.words.shared;
        shared.load::<Learn>(&mut self.seat, FIRST);
    }
}
