//! One round of the lines of two hosts.
ghost use Rattle.std.specs.Prelude.{◌≡◌, ◌⊎◌, ◌<◌, ℕ, true, []};
ghost use Rattle.rds_mail.specs.Learning.{AllGot};
ghost use Rattle.rds_line.specs.Line.{line_past};
ghost use Rattle.rds_run_rounds.specs.Causes.{HasRoomForTwo, IsLeftWell, OwesNothing};
ghost use Rattle.rds_run_rounds.specs.Connection.{AreConnected, IsFullAt};
ghost use Rattle.rds_run_rounds.specs.Drained.{AreDrained};
ghost use Rattle.rds_run_rounds.specs.Rest.{AreMetLines};
ghost use Rattle.rds_run_rounds.specs.Sweep.{ComesTo, GoOnTogether, GoesOn, HaveGoneOn, HaveHadRound, MissStreamAt};
ghost use Rattle.rds_run_rounds.specs.declared.verdict.Round.TheVariants as verdict;

use crate::laws::rested_are_drained;
use crate::meeting::meet_lines;
use crate::verdict::{Round, Wanted, goes_on, turn};
use rds_fmap::Writer;
use rds_line::Line;
use rds_link::{End, Wire};
use std::sync::Wait;

/// One round of the line of a host with a higher one, and of that one's line with it: they meet, each has a turn, and they meet again.
pub(crate) fn round<W: Wire, R: Wait>(
    rt: &R,
    wire: &W,
    wanted: Wanted,
    low: u8,
    high: u8,
    one: &mut Line<W::End, Writer>,
    other: &mut Line<W::End, Writer>,
) -> Round
    requires less { low < high }
    requires connected { (limit : ℕ) × AreConnected W.End.means limit low high one.old other.old }
    ensures together { GoOnTogether W.End.means low high one.old other.old one.new other.new }
    ensures had { HaveHadRound W.End.means wanted (result ≡ verdict.Idle) one.new other.new }
    ensures gone_on { GoesOn result → HaveGoneOn W.End.means.tells wanted one.old other.old one.new other.new }
    ensures fault { (first second : ℕ) → result ≡ verdict.Fault first second →
        MissStreamAt W.End.means.tells wanted first second low high one.new other.new }
    ensures spent { (host peer entries : ℕ) → result ≡ verdict.Spent host peer entries → IsFullAt host peer entries low high one.new other.new }
{
    meet_lines::<W>(one, other);
    let came = turn_both(rt, wire.tells(), wanted, low, high, one, other);
    meet_lines::<W>(one, other);
    came
}

// A turn of each line, or of the first one alone where that ends the rounds.
fn turn_both<E: End, R: Wait>(
    rt: &R,
    tells: bool,
    wanted: Wanted,
    low: u8,
    high: u8,
    one: &mut Line<E, Writer>,
    other: &mut Line<E, Writer>,
) -> Round
    requires less { low < high }
    requires told { tells ≡ E.means.tells }
    ensures together { GoOnTogether E.means low high one.old other.old one.new other.new }
    ensures gone_on { GoesOn result → HaveGoneOn tells wanted one.old other.old one.new other.new }
    ensures left { result ≡ verdict.Idle → IsLeftWell tells wanted one.new other.new × IsLeftWell tells wanted other.new one.new }
    ensures idle { result ≡ verdict.Idle → AllGot one.new.orders × AllGot other.new.orders }
    ensures room { result ≡ verdict.Idle → HasRoomForTwo one.new × HasRoomForTwo other.new }
    ensures owes { result ≡ verdict.Idle →
        (one.new.channel.out ≡ [] → OwesNothing (line_past one.new)) × (other.new.channel.out ≡ [] → OwesNothing (line_past other.new)) }
    ensures drained { E.means.tells ≡ true → AreMetLines E.means one.old other.old → result ≡ verdict.Idle → one.new.channel.out ≡ [] →
        other.new.channel.out ≡ [] → AreDrained (line_past one.new) (line_past other.new) }
    ensures fault { (first second : ℕ) → result ≡ verdict.Fault first second → MissStreamAt tells wanted first second low high one.new other.new }
    ensures spent { (host peer entries : ℕ) → result ≡ verdict.Spent host peer entries → IsFullAt host peer entries low high one.new other.new }
{
    let first = turn(rt, low, high, tells, wanted, one, other);
    if !goes_on(first) {
        return first;
    }
    let second = turn(rt, high, low, tells, wanted, other, one);
    rested_are_drained::<E>();
    either(first, second)
}

/// What two turns or rounds come to together: what the first one says that neither moved nor was idle, or else the second that wasn't
/// idle.
pub(crate) fn either(first: Round, second: Round) -> Round
    ensures idle { result ≡ verdict.Idle → (first ≡ verdict.Idle) × (second ≡ verdict.Idle) }
    ensures one { (result ≡ first) ⊎ (result ≡ second) }
    ensures exact { ComesTo result first second }
{
    if second == Round::Idle || !goes_on(first) {
        return first;
    }
    second
}
