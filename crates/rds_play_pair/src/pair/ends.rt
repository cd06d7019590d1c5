use super::ConnPair;
use crate::{PairEnd, PairError};
use rds_model::{Target, Verdict};
use rds_wire::{Frame, Memory};

impl ConnPair {
    ghost use Rattle.std.specs.Prelude.{◌≡◌, ◌<◌, ◌≤◌, ◌^◌, nat_le, true, ℕ, Err, IfSome, OnOk, OnErr};
    ghost use Rattle.rds_frame.specs.Splitting.{IsFrame};
    ghost use Rattle.std.specs.Option.{option_copied, option_map};
    ghost use Rattle.rds_wire.specs.declared.frame.Frame.{Frame};
    ghost use Rattle.rds_model.specs.Alive.{alive_bytes, covered, is_alive};
    ghost use Rattle.rds_model.specs.Past.{accepted, highest_pulled, newest_stream, open_stream};
    ghost use Rattle.rds_model.specs.Reading.{verdict_of};
    ghost use Rattle.rds_model.specs.Streams.{was_pulled};
    ghost use Rattle.rds_play_pair.specs.Sides.{HasRoomForTwo, IsFull, of_end, TakesFrameByFrame};
    ghost use Rattle.rds_play_pair.specs.declared.error.PairError.TheVariants as errors;

    /// Makes room for the next step of an end: the journal has room for two entries more. Nothing happens in it.
    ///
    /// # Errors
    ///
    /// `Spent` exactly where two entries more would pass the journal's limit, whatever memory there is; else `Memory` where
    /// there is none for them. The pair is as before in both cases.
    pub fn reserve(&mut self, end: PairEnd) -> Result<(), PairError>
        ensures same { self.new ≡ self.old }
        ensures room { OnOk result (HasRoomForTwo (of_end end self.old)) }
        ensures spent { (entries : ℕ) → result ≡ Err (errors.Spent entries) → IsFull entries (of_end end self.old) }
        ensures full { (entries : ℕ) → IsFull entries (of_end end self.old) → result ≡ Err (errors.Spent entries) }
    {
        match end {
            PairEnd::First => self.first.ready(),
            PairEnd::Second => self.second.ready(),
        }
    }

    /// The bytes that an end wrote and that are in flight to the other.
    pub fn in_flight(&self, end: PairEnd) -> &[u8]
        ensures { result.now ≡ (of_end end self.now).flying }
    {
        match end {
            PairEnd::First => self.first.out.rest(),
            PairEnd::Second => self.second.out.rest(),
        }
    }

    /// The stream that is open at an end.
    pub fn stream(&self, end: PairEnd) -> Option<u32>
        ensures { result ≡ open_stream (of_end end self.now).past }
    {
        match end {
            PairEnd::First => self.first.conn.stream(),
            PairEnd::Second => self.second.conn.stream(),
        }
    }

    /// The whole frame that an end has taken of its open stream and not passed.
    pub fn waiting(&self, end: PairEnd) -> Option<&Frame>
        ensures { option_copied result ≡ (of_end end self.now).waiting }
    {
        match end {
            PairEnd::First => self.first.conn.waiting(),
            PairEnd::Second => self.second.conn.waiting(),
        }
    }

    /// What has to become of the frame that waits at an end, or `None` where none does.
    pub fn verdict(&self, end: PairEnd) -> Option<Verdict>
        ensures { result ≡ option_map (λ (f : Frame). verdict_of (of_end end self.now).past f.header) (of_end end self.now).waiting }
    {
        match end {
            PairEnd::First => self.first.conn.verdict(),
            PairEnd::Second => self.second.conn.verdict(),
        }
    }

    /// How many datagrams an end has accepted, pongs among them.
    pub fn accepted(&self, end: PairEnd) -> u64
        ensures { result ≡ accepted (of_end end self.now).past }
    {
        match end {
            PairEnd::First => self.first.conn.accepted(),
            PairEnd::Second => self.second.conn.accepted(),
        }
    }

    /// How many bytes the datagrams of a slot have in all that an end has accepted and that are neither acknowledged nor
    /// taken back. It takes the same time whatever their number.
    pub fn unacked_bytes(&self, end: PairEnd, slot: u16) -> u64
        requires { slot < (of_end end self.now).slots }
        ensures bytes { result ≡ alive_bytes slot (of_end end self.now).past }
        ensures most { result ≤ 2 ^ 52 }
    {
        match end {
            PairEnd::First => self.first.conn.unacked_bytes(slot),
            PairEnd::Second => self.second.conn.unacked_bytes(slot),
        }
    }

    /// Replaces `out` by the numbers of the datagrams that a cancellation by a slot of an end would take back now,
    /// ascending.
    ///
    /// # Errors
    ///
    /// Where there is no memory for them. `out` is as before.
    pub fn covered(
        &self,
        end: PairEnd,
        slot: u16,
        target: &Target,
        out: &mut Vec<u64>,
    ) -> Result<(), Memory>
        ensures ok { OnOk result (out.new.items ≡ covered slot target.now (of_end end self.now).past) }
        ensures err { OnErr result (out.new.items ≡ out.old.items) }
    {
        match end {
            PairEnd::First => self.first.conn.covered(slot, target, out),
            PairEnd::Second => self.second.conn.covered(slot, target, out),
        }
    }

    /// The highest number of a datagram that an end ever pulled, or 0. Of the numbers that are alive it has pulled those up
    /// to this one, and no other.
    pub fn highest(&self, end: PairEnd) -> u64
        ensures number { result ≡ highest_pulled (of_end end self.now).past }
        ensures pulled { (n : ℕ) → is_alive (of_end end self.now).past n ≡ true →
            was_pulled (of_end end self.now).past n ≡ nat_le n result }
    {
        match end {
            PairEnd::First => self.first.highest(),
            PairEnd::Second => self.second.highest(),
        }
    }

    /// What every pair keeps of its reading; a frame that waits is whole. It does nothing: a caller gets these facts from it.
    pub fn reading(&self)
        ensures first { TakesFrameByFrame self.now.first }
        ensures second { TakesFrameByFrame self.now.second }
        ensures whole_first { IfSome self.now.first.waiting IsFrame }
        ensures whole_second { IfSome self.now.second.waiting IsFrame }
        ensures newest { newest_stream self.now.first.past ≡ newest_stream self.now.second.past }
    {
        self.first.reading();
        self.second.reading();
    }
}
