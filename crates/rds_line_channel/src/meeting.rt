//! The meeting of two channels.
ghost use Rattle.std.specs.Prelude.{◌≡◌, true};
ghost use Rattle.rds_model.specs.Honest.{IsHonest};
ghost use Rattle.rds_line_channel.specs.Meeting.{AreMet, AtEach};
ghost use Rattle.rds_line_channel.specs.Streams.{numbers, with_list};

use crate::Channel;
use rds_link::Wire;

/// The two ends of each stream of two channels meet, which were given the same streams: each is told all that the other sent,
/// and whether it has shut. Where the ends tell their bytes, each journal then has read a beginning of what the other wrote,
/// on every stream.
pub fn meet<W: Wire>(a: &mut Channel<W::End>, b: &mut Channel<W::End>)
    requires numbers { numbers b.old.streams.list ≡ numbers a.old.streams.list }
    requires pairs { AtEach W.End.means.meets a.old.streams.list b.old.streams.list }
    ensures honest { W.End.means.tells ≡ true → IsHonest a.new.conn.log.past b.new.conn.log.past }
    ensures met { AreMet W.End.means a.old.streams.list a.new.streams.list b.old.streams.list b.new.streams.list }
    ensures pairs { AtEach W.End.means.meets a.new.streams.list b.new.streams.list }
    ensures one { a.new ≡ record a.old { streams = with_list a.old.streams a.new.streams.list } }
    ensures other { b.new ≡ record b.old { streams = with_list b.old.streams b.new.streams.list } }
    ensures one_numbers { numbers a.new.streams.list ≡ numbers a.old.streams.list }
    ensures other_numbers { numbers b.new.streams.list ≡ numbers b.old.streams.list }
{
    a.conn.known();
    b.conn.known();
    crate::meet_streams::<W>(&mut a.streams, &mut b.streams);
    a.streams.known();
    b.streams.known();
}
