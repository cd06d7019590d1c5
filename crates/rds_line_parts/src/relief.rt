//! Freed bytes, on their way from a connection to the meter of its host.
ghost use Rattle.std.specs.Prelude.{◌≡◌, ℕ, ◌+◌, ◌<◌, ◌≤◌, ◌^◌, [], ◌∷◌, sum};
ghost use Rattle.rds_conn.specs.Connection.{freed_bytes_of};
ghost use Rattle.rds_wire.specs.declared.kind.TheConstants.{MAX_LENGTH};
ghost use Rattle.rds_model.specs.declared.entry.TheConstants.{MAX_SLOTS};
ghost use Rattle.rds_meter.specs.declared.view.Step.TheVariants.{Added};
ghost use Rattle.rds_meter.specs.Seats.{knowing};
ghost use Rattle.rds_line_parts.specs.Words.{after_steps};
ghost use Rattle.rds_meter.specs.Places.{freed_word, part};
ghost use Rattle.rds_line_parts.specs.Relief.{IsRelief};

use crate::words::LineWords;
use rds_conn::{Conn, Freed};

/// Adds to the freed word of each slot all freed bytes that the connection hasn't handed out.
pub fn relieve(conn: &mut Conn, words: &mut LineWords)
    requires { (slot : ℕ) → slot < conn.old.slots → part (freed_word slot) words.old.view.steps + freed_bytes_of slot conn.old ≤ 2 ^ 52 }
    ensures none { sum conn.new.freed ≡ 0 }
    ensures rest { conn.new ≡ record conn.old { freed = conn.new.freed } }
    ensures words { IsRelief conn.old.freed words.old words.new }
{
    conn.known();
    while let Some(freed) = conn.take_freed() {
        add(words, freed);
    }
}

// Adds bytes of one slot to its freed word.
fn add(words: &mut LineWords, freed: Freed)
    requires slot { freed.slot < MAX_SLOTS }
    requires bytes { freed.bytes ≤ MAX_LENGTH }
    requires part { part (freed_word freed.slot) words.old.view.steps + freed.bytes ≤ 2 ^ 52 }
    ensures { (after : ℕ) × (words.new ≡ knowing words.old (after_steps words.old.view (Added (freed_word freed.slot) freed.bytes after ∷ []))) }
{
    words.free(freed.slot, freed.bytes as u32);
}
