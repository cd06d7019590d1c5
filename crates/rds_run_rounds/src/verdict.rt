//! What the turns of a round come to.
ghost use Rattle.std.specs.Prelude.{◌≡◌, ◌↔◌, ◌<◌, ◌+◌, ◌^◌, ◌∷◌, IsTrue, ℕ, List, [], max, min, true};
ghost use Rattle.rds_mail.specs.Learning.{AllGot};
ghost use Rattle.rds_model.specs.declared.entry.Entry.{Entry as Event};
ghost use Rattle.rds_model.specs.Past.{newest_stream};
ghost use Rattle.rds_line_channel.specs.Carried.{shuts};
ghost use Rattle.rds_line.specs.Line.{IsFull, line_past};
ghost use Rattle.rds_line.specs.Stays.{LineStays};
ghost use Rattle.rds_line.specs.Turns.{IsIdleTurn};
ghost use Rattle.rds_host.specs.Lines.{pair_of};
ghost use Rattle.rds_run_rounds.specs.Causes.{HasRoomForTwo, IsLeftWell, MissesByOrder, MissesStream, OwesNothing, ShouldHaveStream, refusals};
ghost use Rattle.rds_run_rounds.specs.Rest.{KeepsStreams};
ghost use Rattle.rds_run_rounds.specs.Sweep.{GoesOn};
ghost use Rattle.rds_run_rounds.specs.declared.verdict.Round.TheVariants as round;

use rds_fmap::Writer;
use rds_line::{Line, Turn};
use rds_link::End;
use rds_model::{Entry, Journal};
use std::sync::Wait;

/// What a round came to.
#[derive(Clone, Copy, Debug, PartialEq, Eq)]
pub(crate) enum Round {
    /// A line moved.
    Moved,
    /// None did.
    Idle,
    /// The line of one of these two hosts with the other has no stream left, and the two should have one.
    Fault { low: u8, high: u8 },
    /// The journal of this host with that peer has so many entries, and two more would pass its limit.
    Spent { host: u8, peer: u8, entries: u32 },
    /// Memory ran out.
    Memory,
}

/// Whether the rounds go on after this.
pub(crate) fn goes_on(came: Round) -> bool
    ensures { IsTrue result ↔ GoesOn came }
{
    matches!(came, Round::Moved | Round::Idle)
}

/// What is to be known of two hosts beside the journals of their lines where one of these is over.
#[derive(Clone, Copy)]
pub struct Wanted {
    /// Whether a stream between them wasn't opened.
    pub lacks: bool,
    /// How many cuts of these two hosts the script has.
    pub cuts: u32,
}

// How many streams a journal shut.
fn shuts_in(journal: &Journal) -> u32
    ensures { result ≡ shuts journal.now.past }
{
    let mut count = 0u32;
    for entry in journal.entries() {
        count = shuts_after(count, entry);
    }
    count
}

// How many streams a journal shut with one more entry, where it shut so many before.
fn shuts_after(count: u32, entry: &Entry) -> u32
    requires { count + 1 < 2 ^ 32 }
    ensures { (past : List Event) → count ≡ shuts past → result ≡ shuts (entry.now ∷ past) }
{
    match entry {
        Entry::Shut { .. } => count + 1,
        _ => count,
    }
}

// How many headers a journal refused.
fn refusals_in(journal: &Journal) -> u32
    ensures { result ≡ refusals journal.now.past }
{
    let mut count = 0u32;
    for entry in journal.entries() {
        count = refusals_after(count, entry);
    }
    count
}

// How many headers a journal refused with one more entry, where it refused so many before.
fn refusals_after(count: u32, entry: &Entry) -> u32
    requires { count + 1 < 2 ^ 32 }
    ensures { (past : List Event) → count ≡ refusals past → result ≡ refusals (entry.now ∷ past) }
{
    match entry {
        Entry::Bad { .. } => count + 1,
        _ => count,
    }
}

// Whether a line that is over should have a stream left: one wasn't opened, or more were shut than cuts and refused headers say.
// There are more streams than cuts. So it always should have one over ends that tell their bytes, where no header is refused.
fn is_fault<E: End>(
    tells: bool,
    wanted: Wanted,
    line: &Line<E, Writer>,
    other: &Line<E, Writer>,
) -> bool
    ensures { IsTrue result ↔ ShouldHaveStream tells wanted (line_past line.now) (line_past other.now) }
{
    if tells || wanted.lacks {
        return true;
    }
    let causes = wanted.cuts.saturating_add(refusals_in(other.journal()));
    shuts_in(line.journal()) > causes
}

/// One turn of a host's line, where `other` is the peer's line back, over ends that tell their bytes or don't. A line that is over moved
/// where its journal has more entries: it may be full now.
pub(crate) fn turn<E: End, R: Wait>(
    rt: &R,
    host: u8,
    peer: u8,
    tells: bool,
    wanted: Wanted,
    line: &mut Line<E, Writer>,
    other: &Line<E, Writer>,
) -> Round
    ensures stays { LineStays E.means pair_of line.old line.new }
    ensures idle { result ≡ round.Idle → AllGot line.new.orders }
    ensures kept { KeepsStreams E.means line.old }
    ensures keeps { KeepsStreams E.means line.new }
    ensures nothing { tells ≡ true → result ≡ round.Idle → IsIdleTurn E.means line.old line.new }
    ensures left { result ≡ round.Idle → IsLeftWell tells wanted line.new other.now }
    ensures by_order { GoesOn result → MissesByOrder tells wanted line.old line.new other.now }
    ensures room { GoesOn result → HasRoomForTwo line.old }
    ensures still_room { result ≡ round.Idle → HasRoomForTwo line.new }
    ensures owes { result ≡ round.Idle → line.new.channel.out ≡ [] → OwesNothing (line_past line.new) }
    ensures fault { (low high : ℕ) → result ≡ round.Fault low high → (low ≡ min host peer) × (high ≡ max host peer) }
    ensures misses { (low high : ℕ) → result ≡ round.Fault low high → MissesStream tells wanted line.new other.now }
    ensures spent { (at to entries : ℕ) → result ≡ round.Spent at to entries → (at ≡ host) × (to ≡ peer) × IsFull entries line.new }
{
    let before = line.journal().len();
    line.known();
    let came = line.turn(rt);
    line.known();
    match came {
        Turn::Moved => Round::Moved,
        Turn::Idle => Round::Idle,
        Turn::Over if is_fault(tells, wanted, line, other) => Round::Fault {
            low: host.min(peer),
            high: host.max(peer),
        },
        Turn::Over if line.journal().len() > before => Round::Moved,
        Turn::Over => Round::Idle,
        Turn::Spent { entries } => Round::Spent {
            host,
            peer,
            entries,
        },
        Turn::Memory => Round::Memory,
    }
}

/// The stream that a journal opened last, or 0.
pub fn last_stream(journal: &Journal) -> u32
    ensures { result ≡ newest_stream journal.now.past }
{
    let mut last = 0;
    for entry in journal.entries() {
        last = opened_last(last, entry);
    }
    last
}

// The stream that was opened last after an entry.
fn opened_last(last: u32, entry: &Entry) -> u32
    ensures { (past : List Event) → last ≡ newest_stream past → result ≡ newest_stream (entry.now ∷ past) }
{
    match entry {
        Entry::Open { stream } => *stream,
        _ => last,
    }
}
