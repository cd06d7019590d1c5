//! How a turn pulls the frame that is owed, and writes.
ghost use Rattle.std.specs.Prelude.{◌≡◌, ◌≢◌, ◌⊎◌, ◌<◌, ℕ, Bool, true, false, Ok, Err, IfErr, IfSome, OnOk, OnErr, [], length};
ghost use Rattle.rds_model.specs.declared.journal.JournalError.TheVariants as errors;
ghost use Rattle.rds_conn.specs.Connection.{IsReady};
ghost use Rattle.rds_line_parts.specs.Own.{IsRefresh};
ghost use Rattle.rds_line_channel.specs.Streams.{newest_place};
ghost use Rattle.rds_line.specs.Line.{IsFull, line_past, pulls_in};
ghost use Rattle.rds_line.specs.Stays.{LineStays};
ghost use Rattle.rds_line.specs.Steps.{HasBits, KeepsArrived, StaysQuiet};
ghost use Rattle.rds_line.specs.Turns.{FindsNoRoom, HasLessToWrite, LeavesNothing, LoadsOwn, FindsNothingOwed, PullsOwn, SendsBytes};
ghost use Rattle.rds_line.specs.declared.outcome.Sent.TheVariants as sent;

use super::Line;
use crate::outcome::Sent;
use rds_conn::Pulled;
use rds_fmap::MapWriter;
use rds_link::{End, Put};
use rds_model::JournalError;

impl<E: End, M: MapWriter> Line<E, M> {
    // Writes what is to be written. Where that is nothing, it pulls the frame that is owed and writes that.
    pub(super) fn send(&mut self) -> Result<Sent, JournalError>
        ensures stays { LineStays E.means M.pair self.old self.new }
        ensures orders { self.new.orders ≡ self.old.orders }
        ensures came { OnOk result (LeavesNothing self.old.channel self.new.channel) }
        ensures arrived { KeepsArrived self.old.channel self.new.channel }
        ensures closed { result ≡ Ok sent.Closed → (self.old.channel.streams.is_open ≡ false) × (self.new ≡ self.old) }
        ensures shut { self.old.channel.streams.is_open ≡ false → result ≡ Ok sent.Closed }
        ensures nothing { result ≡ Ok sent.Nothing → FindsNothingOwed self.old self.new × (line_past self.new ≡ line_past self.old) }
        ensures full { result ≡ Ok sent.Full → FindsNoRoom E.means self.old.channel self.new.channel }
        ensures bytes { result ≡ Ok sent.Bytes →
            SendsBytes E.means (newest_place self.old.channel.streams) self.old.channel.streams.list self.new.channel.streams.list }
        ensures less { result ≡ Ok sent.Bytes → HasLessToWrite self.old.channel self.new.channel }
        ensures looked { result ≡ Ok sent.Nothing → LoadsOwn self.old self.new }
        ensures pulls { (pulls_in (line_past self.new) ≡ pulls_in (line_past self.old)) ⊎ PullsOwn self.old self.new }
        ensures ended { result ≡ Ok sent.Ended → length (line_past self.old) < length (line_past self.new) }
        ensures spent { (entries : ℕ) → result ≡ Err (errors.Spent entries) → IsFull entries self.new }
    {
        if !self.channel.is_open() {
            return Ok(Sent::Closed);
        }
        self.channel.reserve()?;
        if self.channel.unwritten() == 0 && !self.pull()? {
            return Ok(Sent::Nothing);
        }
        self.write()
    }

    // Pulls the frame that is owed, and answers whether one is. Before the pull the host's own map is looked at.
    fn pull(&mut self) -> Result<bool, JournalError>
        requires ready { IsReady self.old.channel.conn }
        requires open { self.old.channel.streams.is_open ≡ true }
        requires none { self.old.channel.out ≡ [] }
        ensures stays { LineStays E.means M.pair self.old self.new }
        ensures orders { self.new.orders ≡ self.old.orders }
        ensures came { LeavesNothing self.old.channel self.new.channel }
        ensures arrived { KeepsArrived self.old.channel self.new.channel }
        ensures streams { self.new.channel.streams ≡ self.old.channel.streams }
        ensures appends { result ≡ Ok true → length (line_past self.old) < length (line_past self.new) }
        ensures some { result ≡ Ok true → self.new.channel.out ≢ [] }
        ensures nothing { result ≡ Ok false → FindsNothingOwed self.old self.new × (line_past self.new ≡ line_past self.old) }
        ensures looked { LoadsOwn self.old self.new }
        ensures pulls { (pulls_in (line_past self.new) ≡ pulls_in (line_past self.old)) ⊎ PullsOwn self.old self.new }
        ensures err { IfErr result (λ error. error ≡ errors.Memory) }
    {
        self.look();
        self.channel.known();
        let pulled = if self.own_pulled {
            self.channel.pull_behind()
        } else {
            self.channel.pull(self.own.map())
        };
        match pulled {
            Ok(pulled) => {
                self.own_pulled = true;
                Ok(pulled != Pulled::Nothing)
            }
            Err(_) => Err(JournalError::Memory),
        }
    }

    // Looks at the host's own map, and reads it where it may have changed. A map that was read is to be pulled.
    fn look(&mut self)
        ensures alone { self.new ≡ record self.old { own = self.new.own; words = self.new.words } }
        ensures refresh { (read : Bool) × IsRefresh self.old.own self.new.own self.old.words self.new.words read }
        ensures bits { HasBits self.new.own.map }
    {
        let read = self.own.refresh(&mut self.words);
        self.own.map().known();
        if read {
            self.own_pulled = false;
        }
    }

    // Writes what is to be written.
    fn write(&mut self) -> Result<Sent, JournalError>
        requires open { self.old.channel.streams.is_open ≡ true }
        requires some { self.old.channel.out ≢ [] }
        ensures quiet { StaysQuiet E.means M.pair self.old self.new }
        ensures came { OnOk result (LeavesNothing self.old.channel self.new.channel) }
        ensures arrived { KeepsArrived self.old.channel self.new.channel }
        ensures written { (result ≢ Ok sent.Closed) × (result ≢ Ok sent.Nothing) }
        ensures full { result ≡ Ok sent.Full → FindsNoRoom E.means self.old.channel self.new.channel }
        ensures bytes { result ≡ Ok sent.Bytes →
            SendsBytes E.means (newest_place self.old.channel.streams) self.old.channel.streams.list self.new.channel.streams.list }
        ensures less { result ≡ Ok sent.Bytes → length self.new.channel.out < length self.old.channel.out }
        ensures ended { result ≡ Ok sent.Ended → length (line_past self.old) < length (line_past self.new) }
        ensures spent { (entries : ℕ) → result ≡ Err (errors.Spent entries) → IsFull entries self.new }
    {
        self.channel.reserve()?;
        match self.channel.write() {
            Put::Took(_) => Ok(Sent::Bytes),
            Put::Full => Ok(Sent::Full),
            Put::Over => {
                self.channel.known();
                self.channel.end_over();
                Ok(Sent::Ended)
            }
        }
    }
}
