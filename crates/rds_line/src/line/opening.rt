//! How a turn opens the next stream.
ghost use Rattle.std.specs.Prelude.{◌≡◌, ◌<◌, ◌+◌, ℕ, Err, OnErr, OnOk, length};
ghost use Rattle.rds_model.specs.declared.journal.JournalError.TheVariants as errors;
ghost use Rattle.rds_line.specs.Line.{IsFull, IsOpenOrLast, line_past};
ghost use Rattle.rds_line.specs.Steps.{KeepsArrived, KeepsUnwritten, StaysQuiet};

use super::Line;
use rds_fmap::MapWriter;
use rds_link::End;
use rds_model::JournalError;

impl<E: End, M: MapWriter> Line<E, M> {
    // Opens the next stream, where none is open. After that a stream is open, or none is left.
    pub(super) fn open_next(&mut self) -> Result<(), JournalError>
        ensures quiet { StaysQuiet E.means M.pair self.old self.new }
        ensures alone { self.new ≡ record self.old { channel = self.new.channel } }
        ensures streams { line_past self.new ≡ line_past self.old → self.new.channel.streams ≡ self.old.channel.streams }
        ensures arrived { OnOk result (KeepsArrived self.old.channel self.new.channel) }
        ensures unwritten { OnOk result (KeepsUnwritten self.old.channel self.new.channel) }
        ensures out { OnOk result (self.new.channel.out ≡ self.old.channel.out) }
        ensures open { OnOk result (IsOpenOrLast self.new) }
        ensures same { OnErr result (self.new ≡ self.old) }
        ensures spent { (entries : ℕ) → result ≡ Err (errors.Spent entries) → IsFull entries self.new }
        ensures full { self.old.channel.conn.log.limit < length (line_past self.old) + 2 → result ≡ Err (errors.Spent (length (line_past self.old))) }
    {
        self.channel.reserve()?;
        if !self.channel.is_open() && self.channel.open_next() {
            self.own_pulled = false;
        }
        Ok(())
    }
}
