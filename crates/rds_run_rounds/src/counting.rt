//! What is left to do of the lines of a run.
ghost use Rattle.std.specs.Prelude.{◌≡◌, ◌≤◌, ◌<◌, ◌*◌, ◌^◌, ℕ, All, List, ◌∷◌, true, is_some, length};
ghost use Rattle.rds_text.specs.declared.host.TheConstants.{MAX_HOSTS};
ghost use Rattle.rds_model.specs.declared.entry.Entry.{Entry as Event};
ghost use Rattle.rds_model.specs.Past.{open_stream};
ghost use Rattle.rds_run_rounds.specs.Causes.{AreClosed, alive_in_row, alive_in_rows};
ghost use Rattle.rds_run_rounds.specs.Grid.{AreRows, rows_of};
ghost use Rattle.rds_run_rounds.specs.Sweep.{AreWritten};

use crate::rounds::Lines;
use rds_fmap::Writer;
use rds_line::Line;
use rds_link::End;
use rds_model::{Entry, Journal};

/// How many datagrams aren't acknowledged.
pub(crate) fn unacked<E: End>(lines: &Lines<E>) -> u64
    requires { (hosts : ℕ) × (hosts ≤ MAX_HOSTS) × AreRows hosts (rows_of lines.now.items) }
    ensures { result ≡ alive_in_rows (rows_of lines.now.items) }
{
    let mut count = 0u64;
    for host in 0..lines.len() {
        count += unacked_of(&lines[host]);
    }
    count
}

// How many datagrams of one host aren't.
fn unacked_of<E: End>(row: &Vec<Line<E, Writer>>) -> u64
    requires { length row.now.items < 8 }
    ensures count { result ≡ alive_in_row row.now.items }
    ensures most { result ≤ length row.now.items * 2 ^ 32 }
{
    let mut count = 0u64;
    for place in 0..row.len() {
        count += u64::from(row[place].unacked());
    }
    count
}

/// Whether no line has bytes that are to be written.
pub(crate) fn are_written<E: End>(lines: &Lines<E>) -> bool
    ensures { result ≡ true → All AreWritten (rows_of lines.now.items) }
{
    for host in 0..lines.len() {
        if !is_written(&lines[host]) {
            return false;
        }
    }
    true
}

// Whether no line of one host has.
fn is_written<E: End>(row: &Vec<Line<E, Writer>>) -> bool
    ensures { result ≡ true → AreWritten row.now.items }
{
    for place in 0..row.len() {
        if row[place].unwritten() != 0 {
            return false;
        }
    }
    true
}

/// Whether no line has a stream open.
pub(crate) fn are_closed<E: End>(lines: &Lines<E>) -> bool
    ensures { result ≡ true → All AreClosed (rows_of lines.now.items) }
{
    for host in 0..lines.len() {
        if !is_closed(&lines[host]) {
            return false;
        }
    }
    true
}

// Whether no line of one host has.
fn is_closed<E: End>(row: &Vec<Line<E, Writer>>) -> bool
    ensures { result ≡ true → AreClosed row.now.items }
{
    for place in 0..row.len() {
        if has_stream(row[place].journal()) {
            return false;
        }
    }
    true
}

// Whether a stream is open in a journal.
fn has_stream(journal: &Journal) -> bool
    ensures { result ≡ is_some (open_stream journal.now.past) }
{
    let mut has = false;
    for entry in journal.entries() {
        has = has_after(has, entry);
    }
    has
}

// Whether one is open after an entry.
fn has_after(has: bool, entry: &Entry) -> bool
    ensures { (past : List Event) → has ≡ is_some (open_stream past) → result ≡ is_some (open_stream (entry.now ∷ past)) }
{
    match entry {
        Entry::Open { .. } => true,
        Entry::Shut { .. } | Entry::Bad { .. } => false,
        _ => has,
    }
}
