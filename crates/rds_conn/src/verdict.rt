ghost use Rattle.std.specs.Prelude.{◌≡◌, List, if◌then◌else◌, nat_le, ◌&&◌, ◌==◌};
ghost use Rattle.rds_wire.specs.declared.header.TheConstants.{RETRANSMITTED as again_flag};
ghost use Rattle.rds_wire.specs.Kinds.{carries};
ghost use Rattle.rds_model.specs.declared.entry.Entry.{Entry};
ghost use Rattle.rds_model.specs.declared.entry.Verdict.TheVariants as verdict;
ghost use Rattle.rds_model.specs.Past.{last_passed, passes};
ghost use Rattle.rds_model.specs.Reading.{verdict_of as verdict_after, verdict_of_ports};
ghost use Rattle.rds_conn.specs.Passing.{outcome_of as outcome_after, delivery_of};

use crate::Found;
use rds_model::{Outcome, Verdict};
use rds_wire::{Header, Kind, RETRANSMITTED, kind_of};

/// What has to become of a frame with this header, where `last` was the last passed number.
pub(crate) fn verdict_of(last: u64, h: &Header) -> Verdict
    ensures { (past : List Entry) → last ≡ last_passed past → result ≡ verdict_after past h.now }
{
    match kind_of(h) {
        Kind::Map => Verdict::Map,
        Kind::OddMap => Verdict::OddMap,
        Kind::Ack => Verdict::AckOnly,
        Kind::Data => verdict_of_datagram(last, h),
    }
}

fn verdict_of_datagram(last: u64, h: &Header) -> Verdict
    ensures { result ≡ (if nat_le h.now.sequence last && carries again_flag h.now.flags then verdict.Old
        else verdict_of_ports h.now.sport h.now.dport) }
{
    if h.sequence <= last && h.flags & RETRANSMITTED != 0 {
        Verdict::Old
    } else if h.dport != 0 {
        Verdict::Deliver { dport: h.dport }
    } else if h.sport == 0 {
        Verdict::Void
    } else {
        Verdict::Ping
    }
}

/// What becomes of a frame with this verdict, where the port of a datagram was looked up with this answer.
pub(crate) fn outcome_of(verdict: Verdict, found: Found) -> Outcome
    ensures { result ≡ outcome_after verdict found }
{
    match verdict {
        Verdict::Deliver { .. } => outcome_of_delivery(found),
        Verdict::Old => Outcome::Old,
        Verdict::Ping => Outcome::Ping,
        Verdict::Void => Outcome::Void,
        Verdict::AckOnly => Outcome::AckOnly,
        Verdict::Map => Outcome::Map,
        Verdict::OddMap => Outcome::OddMap,
    }
}

fn outcome_of_delivery(found: Found) -> Outcome
    ensures { result ≡ delivery_of found }
{
    match found {
        Found::Slot(slot) => Outcome::Slot(slot),
        Found::NoSocket | Found::Unasked => Outcome::NoSocket,
    }
}

/// The last passed number after the reading of this one with this outcome.
pub(crate) fn passed_after(last: u64, number: u64, outcome: Outcome) -> u64
    ensures { result ≡ (if passes outcome then number else last) }
{
    if outcome.passes() { number } else { last }
}
