//! How a pair is made, and what is known once a reader is joined into its writer.
ghost use Rattle.std.specs.Prelude.{◌≡◌, ℕ, ◌≤◌, [], replicate, IfOk};
ghost use Rattle.std.specs.Arc.{arc_value};
ghost use Rattle.rds_fmap.specs.Readers.{ReaderView, HasSeen, NeverFalls};
ghost use Rattle.rds_fmap.specs.Versions.{IsSeenIn};
ghost use Rattle.rds_fmap.specs.declared.seen.Seen.{Seen};

use super::WORDS;
use super::plays::{Joining, Learn, Seating};
use super::reader::Reader;
use super::rule::Words;
use super::writer::Writer;
use atomic_table::Table;
use rds_wire::Memory;
use std::alloc::Global;
use std::sync::Arc;

/// A writer that has published nothing, and so many readers of it.
pub fn pair(alloc: Global, readers: u32) -> Result<(Writer, Vec<Reader>), Memory>
    requires { 1 ≤ readers }
    ensures writer { IfOk result (λ r. r.0.published ≡ []) }
    ensures readers { IfOk result (λ r. r.1.items ≡ replicate readers (record { pair = r.0.pair; found = [] })) }
{
    let mut writer = Writer::new(alloc)?;
    let mut all = Vec::with_capacity(alloc, readers as usize)?;
    for _ in 0..readers {
        all.push(writer.reader()?)?;
    }
    Ok((writer, all))
}

impl Writer {
    fn new(alloc: Global) -> Result<Writer, Memory>
        ensures { IfOk result (λ w. w.published ≡ []) }
    {
        let zeros = vec![in alloc; 0u64; WORDS]?;
        let (words, seat) = Words::of_words(alloc, zeros.as_slice(), &())?;
        Ok(Writer {
            words: Arc::new(alloc, words)?,
            seat,
            version: 0,
        })
    }

    fn reader(&mut self) -> Result<Reader, Memory>
        ensures same { self.new ≡ self.old }
        ensures new { IfOk result (λ r. r ≡ record { pair = self.old.pair; found = [] }) }
    {
        let words = Arc::try_clone(&self.words)?;
        let seat = words.shared.split_seat::<Seating>(&mut self.seat);
        Ok(Reader { words, seat })
    }
}

/// Joins a reader into the writer of its pair. From then on what each of its looks found is known to be the port's bit in the
/// published map of that version. Of two looks at one word the later found no older version.
pub fn close(writer: &mut Writer, reader: Reader)
    requires { reader.pair ≡ writer.old.pair }
    ensures same { writer.new ≡ writer.old }
    ensures seen { (port : ℕ) (seen : Seen) → HasSeen reader port seen → IsSeenIn writer.new.published port seen }
    ensures ascend { NeverFalls reader.found }
{
    let Reader { seat, .. } = reader;
    let shared = &writer.words.shared;
    shared.join_seat::<Joining>(&mut writer.seat, seat);
    shared.load::<Learn>(&mut writer.seat, 0);
}
