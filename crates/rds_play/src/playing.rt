ghost use Rattle.std.specs.Prelude.{◌≡◌, ◌⊎◌, ◌≤◌, ℕ, Err, IsOk, IfOk, string_bytes};
ghost use Rattle.rds_link.specs.Streaming.{HasRisen, SinkGained, SinkGainedFront};
ghost use Rattle.rds_script.specs.Script.{IsScript};
ghost use Rattle.rds_script.specs.Grammar.{meaning};
ghost use Rattle.rds_model.specs.declared.journal.TheConstants.{MIN_ENTRIES, MAX_ENTRIES};
ghost use Rattle.rds_history.specs.History.{course, text};
ghost use Rattle.rds_text.specs.Lines.{spent_line as line_of_spent};
ghost use Rattle.rds_play.specs.Ends.{play_end};
ghost use Rattle.rds_play.specs.declared.playing.PlayEnd.TheVariants as ended;

use crate::texting::text_of;
use rds_link::{Sink, write_all};
use rds_play_world::{Full, Stop};
use rds_script::Script;
use rds_text::spent_line;
use rds_wire::Memory;
use std::alloc::Global;

/// How the playing of a script ended, and what was written.
#[derive(Clone, Copy, Debug, PartialEq, Eq)]
pub enum PlayEnd {
    /// The whole text was written: the transcript, and the report with its last line `end ok`.
    Ok,
    /// The journal of `host` with `peer` has this many entries, and two more would pass the limit. A text line that says so
    /// was written, and nothing else. Hosts are counted from 0.
    Spent { host: u8, peer: u8, entries: u32 },
    /// The sink failed, after it took a beginning of the text.
    WriteFault,
    /// Memory ran out, and nothing was written.
    Memory,
}

/// Plays a script on hosts in memory, one command after another on one thread, and writes its transcript and its report to
/// the sink once it is played. No journal gets more than `limit` entries. What is printed is this project's own; docs/SCRIPT.md
/// has it.
pub fn play<K: Sink>(alloc: Global, script: &Script, limit: u32, sink: &mut K) -> PlayEnd
    requires script { IsScript script.now }
    requires least { MIN_ENTRIES ≤ limit }
    requires most { limit ≤ MAX_ENTRIES }
    ensures ok { result ≡ ended.Ok → IsOk (course (meaning script.now) limit)
        × SinkGained (K.held sink.old) (K.held sink.new) (text (meaning script.now) limit) }
    ensures spent { (host peer entries : ℕ) → result ≡ ended.Spent host peer entries →
        (course (meaning script.now) limit ≡ Err (record { host = host; peer = peer; entries = entries }))
        × SinkGained (K.held sink.old) (K.held sink.new) (text (meaning script.now) limit) }
    ensures fault { result ≡ ended.WriteFault → HasRisen (K.faults sink.old) (K.faults sink.new)
        × SinkGainedFront (K.held sink.old) (K.held sink.new) (text (meaning script.now) limit) }
    ensures memory { result ≡ ended.Memory → K.held sink.new ≡ K.held sink.old }
    ensures counts { K.faults sink.old ≤ K.faults sink.new }
{
    match answer_to(alloc, script, limit) {
        Ok(answer) => write(sink, answer.text.as_str(), answer.end),
        Err(Memory) => PlayEnd::Memory,
    }
}

// Writes the whole text, and answers how that ended.
fn write<K: Sink>(sink: &mut K, text: &str, end: PlayEnd) -> PlayEnd
    ensures written { (result ≡ end × SinkGained (K.held sink.old) (K.held sink.new) text.now)
        ⊎ (result ≡ ended.WriteFault × HasRisen (K.faults sink.old) (K.faults sink.new)) }
    ensures front { SinkGainedFront (K.held sink.old) (K.held sink.new) text.now }
    ensures counts { K.faults sink.old ≤ K.faults sink.new }
{
    match write_all(sink, text.as_bytes()) {
        Ok(()) => end,
        Err(_) => PlayEnd::WriteFault,
    }
}

// What the sink is to take, and how the call ends once it did.
#[derive(Drop)]
struct Answer {
    text: String,
    end: PlayEnd,
}

// What a script is answered with.
fn answer_to(alloc: Global, script: &Script, limit: u32) -> Result<Answer, Memory>
    requires script { IsScript script.now }
    requires least { MIN_ENTRIES ≤ limit }
    requires most { limit ≤ MAX_ENTRIES }
    ensures text { IfOk result (λ answer. string_bytes answer.text ≡ text (meaning script.now) limit) }
    ensures end { IfOk result (λ answer. answer.end ≡ play_end (course (meaning script.now) limit)) }
{
    match text_of(alloc, script, limit) {
        Ok(text) => Ok(Answer {
            text,
            end: PlayEnd::Ok,
        }),
        Err(Stop::Spent(full)) => spent_answer(alloc, full),
        Err(Stop::Memory) => Err(Memory),
    }
}

// The answer of a script for which a journal is full.
fn spent_answer(alloc: Global, full: Full) -> Result<Answer, Memory>
    ensures text { IfOk result (λ answer. string_bytes answer.text ≡ line_of_spent full.host full.peer full.entries) }
    ensures end { IfOk result (λ answer. answer.end ≡ ended.Spent full.host full.peer full.entries) }
{
    let Full {
        host,
        peer,
        entries,
    } = full;
    let mut text = String::new(alloc);
    spent_line(&mut text, host, peer, entries)?;
    Ok(Answer {
        text,
        end: PlayEnd::Spent {
            host,
            peer,
            entries,
        },
    })
}
