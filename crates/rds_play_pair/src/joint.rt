ghost use Rattle.std.specs.Prelude.{◌≡◌, ℕ, Err, OnOk, OnErr};
ghost use Rattle.rds_play_pair.specs.declared.error.PairError.TheVariants as errors;

mod steps;

use crate::{ConnPair, PairEnd, PairError};
use rds_model::{Journal, Target, Verdict};
use rds_wire::{Frame, Memory};
use std::alloc::Global;
use std::marker::Model;

/// Two connections with at most one frame on its way in each direction. Contracts see both ends.
#[derive(Drop)]
pub struct Joint {
    pair: ConnPair,
}

impl Model for Joint {
    ghost use Rattle.rds_play_pair.specs.Ends.{JointEnds};

    ghost Value = { JointEnds };

    ghost use Rattle.rds_play_pair.specs.Inside.{JointInvariant, joint_view};

    ghost view = { joint_view };

    ghost invariant = { JointInvariant };
}

impl Joint {
    ghost use Rattle.std.specs.Prelude.{◌<◌, ◌≤◌, ◌^◌, nat_le, true, IfOk};
    ghost use Rattle.std.specs.Option.{option_copied, option_map};
    ghost use Rattle.rds_wire.specs.declared.frame.Frame.{Frame};
    ghost use Rattle.rds_model.specs.declared.entry.TheConstants.{MAX_SLOTS};
    ghost use Rattle.rds_model.specs.declared.journal.TheConstants.{MIN_ENTRIES, MAX_ENTRIES};
    ghost use Rattle.rds_model.specs.Alive.{alive_bytes, covered, is_alive};
    ghost use Rattle.rds_model.specs.Past.{accepted, highest_pulled, newest_stream, open_stream};
    ghost use Rattle.rds_model.specs.Reading.{verdict_of};
    ghost use Rattle.rds_model.specs.Streams.{was_pulled};
    ghost use Rattle.rds_model.specs.Legal.{IsWhole};
    ghost use Rattle.rds_model.specs.Honest.{IsHonest};
    ghost use Rattle.rds_model.specs.Fifo.{HasNoBad};
    ghost use Rattle.rds_model.specs.Pairs.{IsDeliveredOnce};
    ghost use Rattle.rds_play_pair.specs.Ends.{HasRoomForTwo, IsFull, blank, of_end};
    ghost use Rattle.rds_play_pair.specs.OnTheWay.{ReadsAll, SendsOneByOne};

    /// Two ends of a connection between two hosts, given by their IPv4 addresses, of which nothing has happened. The slots
    /// of sockets are below `slots`, and each journal may have `limit` entries.
    ///
    /// # Errors
    ///
    /// Where there is no memory for its tables.
    pub fn new(
        alloc: Global,
        first: u32,
        second: u32,
        slots: u16,
        limit: u32,
    ) -> Result<Joint, Memory>
        requires slots { slots ≤ MAX_SLOTS }
        requires least { MIN_ENTRIES ≤ limit }
        requires most { limit ≤ MAX_ENTRIES }
        ensures { IfOk result (λ joint. joint ≡ record { first = blank slots limit; second = blank slots limit }) }
    {
        Ok(Joint {
            pair: ConnPair::new(alloc, first, second, slots, limit)?,
        })
    }

    /// Makes room for the next step of an end: its journal has room for two entries more. Nothing happens in it. After it
    /// that step isn't refused for want of room.
    ///
    /// # Errors
    ///
    /// `Spent` exactly where two entries more would pass the journal's limit, whatever memory there is; else `Memory` where
    /// there is none for them. The joint is as before in both cases.
    pub fn reserve(&mut self, end: PairEnd) -> Result<(), PairError>
        ensures same { self.new ≡ self.old }
        ensures room { OnOk result (HasRoomForTwo (of_end end self.old)) }
        ensures spent { (entries : ℕ) → result ≡ Err (errors.Spent entries) → IsFull entries (of_end end self.old) }
        ensures full { (entries : ℕ) → IsFull entries (of_end end self.old) → result ≡ Err (errors.Spent entries) }
    {
        self.pair.reserve(end)
    }

    /// The bytes that an end wrote and that are in flight to the other.
    pub fn in_flight(&self, end: PairEnd) -> &[u8]
        ensures { result.now ≡ (of_end end self.now).flying }
    {
        self.pair.in_flight(end)
    }

    /// The stream that is open at an end, and so at both.
    pub fn stream(&self, end: PairEnd) -> Option<u32>
        ensures { result ≡ open_stream (of_end end self.now).past }
    {
        self.pair.stream(end)
    }

    /// The whole frame that has come to an end and that it didn't pass.
    pub fn waiting(&self, end: PairEnd) -> Option<&Frame>
        ensures { option_copied result ≡ (of_end end self.now).waiting }
    {
        self.pair.waiting(end)
    }

    /// What has to become of the frame that waits at an end, or `None` where none does.
    pub fn verdict(&self, end: PairEnd) -> Option<Verdict>
        ensures { result ≡ option_map (λ (f : Frame). verdict_of (of_end end self.now).past f.header) (of_end end self.now).waiting }
    {
        self.pair.verdict(end)
    }

    /// How many datagrams an end has accepted, pongs among them.
    pub fn accepted(&self, end: PairEnd) -> u64
        ensures { result ≡ accepted (of_end end self.now).past }
    {
        self.pair.accepted(end)
    }

    /// The journal of an end.
    pub fn journal(&self, end: PairEnd) -> &Journal
        ensures { result.now.past ≡ (of_end end self.now).past }
    {
        self.pair.journal(end)
    }

    /// How many bytes the datagrams of a slot have in all that an end has accepted and that are neither acknowledged nor
    /// taken back. It takes the same time whatever their number.
    pub fn unacked_bytes(&self, end: PairEnd, slot: u16) -> u64
        requires { slot < (of_end end self.now).slots }
        ensures bytes { result ≡ alive_bytes slot (of_end end self.now).past }
        ensures most { result ≤ 2 ^ 52 }
    {
        self.pair.unacked_bytes(end, slot)
    }

    /// Replaces `out` by the numbers of the datagrams that a cancellation by a slot of an end would take back now,
    /// ascending.
    ///
    /// # Errors
    ///
    /// Where there is no memory for them. `out` is as before.
    pub fn covered(
        &self,
        end: PairEnd,
        slot: u16,
        target: &Target,
        out: &mut Vec<u64>,
    ) -> Result<(), Memory>
        ensures ok { OnOk result (out.new.items ≡ covered slot target.now (of_end end self.now).past) }
        ensures err { OnErr result (out.new.items ≡ out.old.items) }
    {
        self.pair.covered(end, slot, target, out)
    }

    /// The highest number of a datagram that an end ever pulled, or 0. Of the numbers that are alive it has pulled those up
    /// to this one, and no other.
    pub fn highest(&self, end: PairEnd) -> u64
        ensures number { result ≡ highest_pulled (of_end end self.now).past }
        ensures pulled { (n : ℕ) → is_alive (of_end end self.now).past n ≡ true →
            was_pulled (of_end end self.now).past n ≡ nat_le n result }
    {
        self.pair.highest(end)
    }

    /// Gives up the connections, and keeps both journals, that of the first end first.
    pub fn into_journals(self) -> (Journal, Journal)
        ensures first { result.0.past ≡ self.first.past }
        ensures second { result.1.past ≡ self.second.past }
    {
        self.pair.into_journals()
    }

    /// What every joint keeps: the same stream is open at both ends, at most one frame is on its way each way, both journals
    /// are legal and honest, each datagram was delivered at most once, and no header was refused.
    pub fn known(&self)
        ensures streams { open_stream self.now.first.past ≡ open_stream self.now.second.past }
        ensures newest { newest_stream self.now.first.past ≡ newest_stream self.now.second.past }
        ensures one_forth { SendsOneByOne self.now.first self.now.second }
        ensures one_back { SendsOneByOne self.now.second self.now.first }
        ensures all_forth { ReadsAll self.now.first self.now.second }
        ensures all_back { ReadsAll self.now.second self.now.first }

        ensures whole_first { IsWhole self.now.first.past }
        ensures whole_second { IsWhole self.now.second.past }
        ensures honest { IsHonest self.now.first.past self.now.second.past }
        ensures forth { (sport dport : ℕ) → IsDeliveredOnce sport dport self.now.first.past self.now.second.past }
        ensures back { (sport dport : ℕ) → IsDeliveredOnce sport dport self.now.second.past self.now.first.past }
        ensures none_refused { HasNoBad self.now.first.past × HasNoBad self.now.second.past }
    {
        self.pair.known();
        self.pair.reading();
    }
}
