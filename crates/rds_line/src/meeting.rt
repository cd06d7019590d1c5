//! The meeting of two lines.
ghost use Rattle.std.specs.Prelude.{◌≡◌, ℕ, true};
ghost use Rattle.rds_model.specs.Honest.{IsHonest};
ghost use Rattle.rds_model.specs.Fifo.{HasNoBad};
ghost use Rattle.rds_model.specs.Pairs.{IsDeliveredOnce};
ghost use Rattle.rds_line_channel.specs.Meeting.{AreMet, AtEach};
ghost use Rattle.rds_line_channel.specs.Streams.{numbers};
ghost use Rattle.rds_line.specs.Line.{line_past, with_ends};

use crate::Line;
use rds_fmap::MapWriter;
use rds_link::Wire;
use rds_model::laws;

/// The two ends of each stream of two lines meet, which were given the same streams: each is told all that the other sent,
/// and whether it has shut. Where the ends tell their bytes, the two journals are then honest, so neither end refused a header
/// of the other, and for each port pair the datagrams that were delivered are accepted ones, in order and each once.
pub fn meet<W: Wire, M: MapWriter>(a: &mut Line<W::End, M>, b: &mut Line<W::End, M>)
    requires numbers { numbers b.old.channel.streams.list ≡ numbers a.old.channel.streams.list }
    requires pairs { AtEach W.End.means.meets a.old.channel.streams.list b.old.channel.streams.list }
    ensures honest { W.End.means.tells ≡ true → IsHonest (line_past a.new) (line_past b.new) }
    ensures no_bad { W.End.means.tells ≡ true → HasNoBad (line_past a.new) × HasNoBad (line_past b.new) }
    ensures forth { W.End.means.tells ≡ true → (sport dport : ℕ) → IsDeliveredOnce sport dport (line_past a.new) (line_past b.new) }
    ensures back { W.End.means.tells ≡ true → (sport dport : ℕ) → IsDeliveredOnce sport dport (line_past b.new) (line_past a.new) }
    ensures met { AreMet W.End.means a.old.channel.streams.list a.new.channel.streams.list b.old.channel.streams.list b.new.channel.streams.list }
    ensures pairs { AtEach W.End.means.meets a.new.channel.streams.list b.new.channel.streams.list }
    ensures one_numbers { numbers a.new.channel.streams.list ≡ numbers a.old.channel.streams.list }
    ensures other_numbers { numbers b.new.channel.streams.list ≡ numbers b.old.channel.streams.list }
    ensures one { a.new ≡ with_ends a.old a.new.channel.streams.list }
    ensures other { b.new ≡ with_ends b.old b.new.channel.streams.list }
{
    rds_line_channel::meet::<W>(&mut a.channel, &mut b.channel);
    a.channel.known();
    b.channel.known();
    laws::headline_of_all();
    laws::no_bad_of_all();
}
