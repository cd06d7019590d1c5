ghost use Rattle.std.specs.Prelude.{◌≡◌, ◌≢◌, ◌<◌, ◌≤◌, ◌∷◌, ◌++◌, List, OnOk, length, string_bytes};
ghost use Rattle.rds_model.specs.declared.entry.Entry.{Entry as EntryOf};
ghost use Rattle.rds_model.specs.Past.{accepted};
ghost use Rattle.rds_history.specs.Transcript.{entry_line};
ghost use Rattle.rds_play_mesh.specs.Ends.{end_at};
ghost use Rattle.rds_play_world.specs.Printing.{PrintsAlone};
ghost use Rattle.rds_text.specs.declared.host.TheConstants.{MAX_HOSTS};

use rds_model::Entry;
use rds_play_mesh::Mesh;
use rds_text::{accept_line, open_line, pull_line, read_line, shut_line};
use rds_wire::Memory;

/// Prints the entry at a place of the journal that a host keeps with a peer, if there is one. A cancellation isn't printed.
pub fn print(text: &mut String, mesh: &Mesh, host: u8, peer: u8, at: u32) -> Result<(), Memory>
    requires host { host < mesh.now.count }
    requires peer { peer < mesh.now.count }
    requires apart { peer ≢ host }
    ensures line { OnOk result ((e : EntryOf) (before after : List EntryOf) → (end_at host peer mesh.now).past ≡ after ++ e ∷ before →
        at ≡ length before → PrintsAlone (accepted (end_at host peer mesh.now).past) before e →
        string_bytes text.new ≡ string_bytes text.old ++ entry_line host peer before e) }
    ensures none { length (end_at host peer mesh.now).past ≤ at → OnOk result (string_bytes text.new ≡ string_bytes text.old) }
{
    mesh.count();
    match mesh.journal(host, peer).at(at) {
        Some(entry) => print_entry(text, host, peer, mesh.accepted(host, peer), entry),
        None => Ok(()),
    }
}

// Prints the line of an entry, `n` being the number of its datagram where one is accepted.
fn print_entry(text: &mut String, host: u8, peer: u8, n: u64, entry: &Entry) -> Result<(), Memory>
    requires host { host < MAX_HOSTS }
    requires peer { peer < MAX_HOSTS }
    ensures { OnOk result ((before : List EntryOf) → PrintsAlone n before entry.now →
        string_bytes text.new ≡ string_bytes text.old ++ entry_line host peer before entry.now) }
{
    match entry {
        Entry::Accept {
            slot,
            sport,
            dport,
            payload,
        } => {
            accept_line(
                text,
                host,
                peer,
                n,
                *slot,
                *sport,
                *dport,
                payload.as_slice(),
            )
        }
        Entry::Open { stream } => open_line(text, host, peer, *stream),
        Entry::Pull { stream, frame } => pull_line(text, host, peer, *stream, frame),
        Entry::Read {
            stream,
            frame,
            outcome,
        } => read_line(text, host, peer, *stream, frame, *outcome),
        Entry::Shut { stream } => shut_line(text, host, peer, *stream),
        Entry::Cancel { .. } | Entry::Bad { .. } => Ok(()),
    }
}
