//! The meeting of the streams of two lines: of what a channel stands on.
ghost use Rattle.std.specs.Prelude.{◌≡◌, ◌<◌, length};
ghost use Rattle.rds_line_channel.specs.Streams.{numbers, with_list};
ghost use Rattle.rds_line_channel.specs.Meeting.{AreMet, AtEach, GotBeginning, MeetAt, StayPaired};

use crate::Streams;
use rds_link::Wire;

// The two ends at this place meet.
fn meet_at<W: Wire>(a: &mut [(u32, W::End)], b: &mut [(u32, W::End)], place: usize)
    requires one { place < length a.old }
    requires other { place < length b.old }
    requires pairs { AtEach W.End.means.meets a.old b.old }
    ensures { MeetAt W.End.means place a.old a.new b.old b.new }
{
    let first = &mut a[place];
    let second = &mut b[place];
    W::meet(&mut first.1, &mut second.1);
}

// The two ends at each place meet.
fn meet_each<W: Wire>(a: &mut [(u32, W::End)], b: &mut [(u32, W::End)])
    requires count { length b.old ≡ length a.old }
    requires pairs { AtEach W.End.means.meets a.old b.old }
    ensures met { AreMet W.End.means a.old a.new b.old b.new }
    ensures forth { AtEach (GotBeginning W.End.means) b.new a.new }
    ensures back { AtEach (GotBeginning W.End.means) a.new b.new }
    ensures one { numbers a.new ≡ numbers a.old }
    ensures other { numbers b.new ≡ numbers b.old }
    ensures pairs { AtEach W.End.means.meets a.new b.new }
    ensures one_stays { StayPaired W.End.means a.old a.new }
    ensures other_stays { StayPaired W.End.means b.old b.new }
{
    for place in 0..a.len() {
        meet_at::<W>(a, b, place);
    }
}

/// The two ends of each stream of two lines meet, which were given the same streams: each is told all that the other sent,
/// and whether it has shut. So what an end got is a beginning of what the other sent, both ways.
pub fn meet_streams<W: Wire>(a: &mut Streams<W::End>, b: &mut Streams<W::End>)
    requires numbers { numbers b.old.list ≡ numbers a.old.list }
    requires pairs { AtEach W.End.means.meets a.old.list b.old.list }
    ensures met { AreMet W.End.means a.old.list a.new.list b.old.list b.new.list }
    ensures forth { AtEach (GotBeginning W.End.means) b.new.list a.new.list }
    ensures back { AtEach (GotBeginning W.End.means) a.new.list b.new.list }
    ensures one_numbers { numbers a.new.list ≡ numbers a.old.list }
    ensures other_numbers { numbers b.new.list ≡ numbers b.old.list }
    ensures one { a.new ≡ with_list a.old a.new.list }
    ensures other { b.new ≡ with_list b.old b.new.list }
    ensures pairs { AtEach W.End.means.meets a.new.list b.new.list }
    ensures one_stays { StayPaired W.End.means a.old.list a.new.list }
    ensures other_stays { StayPaired W.End.means b.old.list b.new.list }
{
    meet_each::<W>(&mut a.streams, &mut b.streams);
}
