ghost use Rattle.std.specs.Prelude.{◌≡◌, ◌⊎◌, ◌≤◌, ◌<◌, ◌++◌, ℕ, true, false, List};
ghost use Rattle.rds_link.specs.Seen.{sink_seen, source_seen};
ghost use Rattle.rds_link.specs.Streaming.{HasRisen, SinkGained, SinkGainedFront};
ghost use Rattle.rds_script.specs.Cause.{cause_text};
ghost use Rattle.rds_script.specs.declared.cause.Cause.{Cause as Why};
ghost use Rattle.rds_script.specs.Grammar.{Meaning};
ghost use Rattle.rds_text.specs.Lines.{end_line, spent_line};
ghost use Rattle.rds_run.specs.ExitStatus.{IsAnswer, IsPlayed, IsRefusal, IsSpelled, IsSpent, IsToldRefused, IsToldSpelled};
ghost use Rattle.rds_script_gen.specs.Generator.{generated};
ghost use Rattle.rds_run_threads.specs.declared.form.Form.TheVariants as form;
ghost use Rattle.rds_run.specs.declared.wire.RunWire.{RunWire};
ghost use Rattle.rds_run.specs.declared.wire.RunWire.TheVariants as wires;
ghost use Rattle.rds_run.specs.GenWords.{AreGen};
ghost use Rattle.rds_run.specs.PlayWords.{ArePlay};
ghost use Rattle.rds_run.specs.RunWords.{AreRun};
ghost use Rattle.rds_run.specs.Works.{AreNoCommand};
ghost use Rattle.rds_run.specs.RunStatus.{HasFilled, IsRan, IsRunAnswer, IsRunText, IsRunUnfinished, IsWireFault, memory_seen, seen_over, tells_over, wire_seen};
ghost use Rattle.rds_run_hosts.specs.Streams.{prepared_streams};
ghost use Rattle.rds_run_laws.specs.Calm.{generated_summary};
ghost use Rattle.rds_run.specs.Ending.{IsEndOfProgram, ReadsScript};
ghost use Rattle.rds_run.specs.Limits.{most_streams};
ghost use Rattle.rds_run.specs.Reading.{IsOfScript, IsReadToEnd, TellsReadFaults};
ghost use Rattle.rds_run.specs.Texts.{usage_line, read_fault_line, bad_line, too_many_line};

use crate::answer::say;
use crate::gen_command::gen_text;
use crate::play_command::play_text;
use crate::run_command::run_text;
use crate::status::Status;
use crate::{Work, work_of};
use rds_link::{Gate, Sink, Source, Wire};
use rds_run_laws::calm::summary_of_words;
use rds_wire::Memory;
use std::alloc::Global;
use std::net::Net;
use std::sync::Wait;
use std::thread::Threads;

const USAGE: &str = "usage: rds play | rds run [--wire memory|tcp] | rds gen N SEED\n";

/// Runs the program on the words after its name, and gives its exit status (docs/COMMAND.md has the table). Two of its
/// commands read a script from the source: `play` writes its transcript and its report to the sink, and `run` runs it with threads and
/// writes its report. `gen` generates a script, runs it so, and writes a summary. Before each command of a run its caller asks the gate.
/// A run goes over streams in memory, or over those of `tcp` where the words name that wire. However the call ends, it gives back all
/// memory that it took.
///
/// | Status | When |
/// |---|---|
/// | 0 | the script was played or run, and its text was written |
/// | 1 | the text is no script; the one text line `bad line N: CAUSE` was written |
/// | 2 | the words are those of no command; the usage line was written |
/// | 3 | the source failed; the text line `read fault` was written |
/// | 4 | the sink failed, after it took a beginning of the answer |
/// | 5 | two hosts of a run lack a stream that they should have; the text line `wire fault H K after k=N` was written |
/// | 6 | memory ran out, or a run found what should never be |
/// | 7 | a journal had no room for its next two entries; the text line `spent H K ENTRIES` was written |
/// | 8 | a run stopped while datagrams weren't acknowledged; the text line `unfinished N` was written |
/// | 9 | a run over `tcp` would need N streams, more than 96; the text line `too many streams N` was written |
pub fn rds_main<S: Source, K: Sink, W: Wire, G: Gate + Sync, R: Threads + Wait + Net + Sync>(
    rt: &R,
    alloc: Global,
    words: &[String],
    source: &mut S,
    sink: &mut K,
    tcp: &mut W,
    gate: &G,
) -> u8
where
    W::End: Send,
    ensures usage { AreNoCommand words.now → (result ≡ 2) ⊎ ((result ≡ 4) ⊎ (result ≡ 6)) }
    ensures usage_only { result ≡ 2 → AreNoCommand words.now }
    ensures usage_text { result ≡ 2 → SinkGained (K.held sink.old) (K.held sink.new) usage_line }

    ensures read_fault { result ≡ 3 → HasRisen (S.faults source.old) (S.faults source.new) }
    ensures read_fault_text { result ≡ 3 → SinkGained (K.held sink.old) (K.held sink.new) read_fault_line }
    // A source that failed is answered so, whatever it gave before, unless the sink failed too.
    ensures read_fault_told { (S.faults source.new ≡ S.faults source.old) ⊎ ((result ≡ 3) ⊎ (result ≡ 4)) }

    // The sink failed, after it took a beginning of the usage line, or of what `play` has to write.
    ensures write_fault { result ≡ 4 → HasRisen (K.faults sink.old) (K.faults sink.new) }
    ensures usage_begun { result ≡ 4 → AreNoCommand words.now → SinkGainedFront (K.held sink.old) (K.held sink.new) usage_line }
    ensures answer_begun { result ≡ 4 → ArePlay words.now → (answer : List ℕ)
        × IsAnswer (source_seen S.left S.faults source.old source.new) answer
        × SinkGainedFront (K.held sink.old) (K.held sink.new) answer }
    // And of what `run` has to write: of the line that no script was read or that its streams are too many, or of the text of its run.
    ensures run_begun { (over : RunWire) → AreRun words.now over → result ≡ 4 → (answer : List ℕ)
        × IsRunAnswer (seen_over over (wire_seen W.End.means.tells W.counted tcp.old tcp.new)) over
        (source_seen S.left S.faults source.old source.new) answer
        × SinkGainedFront (K.held sink.old) (K.held sink.new) answer }
    // And of what `gen` has to write, which is the text of the run of its script.
    ensures gen_begun { (sends seed : ℕ) → AreGen words.now sends seed → result ≡ 4 → (answer : List ℕ)
        × IsRunText memory_seen (form.Summary seed sends) (generated sends seed) answer
        × SinkGainedFront (K.held sink.old) (K.held sink.new) answer }
    ensures memory { result ≡ 6 → K.held sink.new ≡ K.held sink.old }

    // The words are those of `play` or of `run`. The text of the source is refused, and the line that was written says where and why.
    ensures refused { result ≡ 1 → ReadsScript words.now × IsRefusal (S.left source.old) (K.held sink.old) (K.held sink.new) }
    // What came of a script is told only where the source was read to its end.
    ensures read_to_end { ReadsScript words.now → (result ≡ 0) ⊎ ((result ≡ 5) ⊎ ((result ≡ 7) ⊎ ((result ≡ 8) ⊎ (result ≡ 9)))) →
        IsReadToEnd (S.left source.old) (S.left source.new) }
    // A text that is refused is answered so, unless the source or the sink fails or memory runs out.
    ensures refuses { ReadsScript words.now →
        (line : ℕ) → (cause : Why) → IsToldRefused (S.left source.old) line cause →
        (result ≡ 1 × SinkGained (K.held sink.old) (K.held sink.new) (bad_line line (cause_text cause)))
        ⊎ ((result ≡ 3) ⊎ ((result ≡ 4) ⊎ (result ≡ 6))) }

    // The source's bytes spell a script. It was played to its end, what it came to is sound, and exactly its text was written.
    ensures played { ArePlay words.now → result ≡ 0 →
        (s : Meaning) × IsSpelled (S.left source.old) s × IsPlayed s (K.held sink.old) (K.held sink.new) }
    // The source's bytes spell a script. It was run to its end, its hosts did its commands, at least as many streams ended as they cut, what
    // the hosts have then is sound, no journal is full, and exactly the report on it was written.
    ensures ran { AreRun words.now wires.Memory → result ≡ 0 →
        (s : Meaning) × IsSpelled (S.left source.old) s × IsRan memory_seen form.Report s (K.held sink.old) (K.held sink.new) }
    // The same over TCP, where no more streams were prepared for that script than may be. Proved is what the hosts did, what their journals
    // have, and what their sockets handed out of it, whatever the network does. Assumed is, where a clause has the premise `IsHonest`, that
    // each TCP stream gives a beginning of the bytes written to it.
    ensures ran_over_tcp { AreRun words.now wires.Tcp → result ≡ 0 →
        (s : Meaning) × IsSpelled (S.left source.old) s × (prepared_streams s ≤ most_streams)
        × IsRan
        (wire_seen W.End.means.tells W.counted tcp.old tcp.new)
        form.Report s (K.held sink.old) (K.held sink.new) }
    // The script of so many sends and this seed was run to its end, its hosts did its commands, at least as many streams ended as they cut,
    // what the hosts have then is sound, no journal is full, and exactly the summary of it was written.
    ensures summed { (sends seed : ℕ) → AreGen words.now sends seed → result ≡ 0 →
        IsRan memory_seen (form.Summary seed sends) (generated sends seed) (K.held sink.old) (K.held sink.new) }
    // That summary is a function of the two numbers: each send was received, and no thread's turn shows in it.
    ensures summary_text { (sends seed : ℕ) → AreGen words.now sends seed → result ≡ 0 →
        SinkGained (K.held sink.old) (K.held sink.new) (generated_summary seed sends) }
    ensures written { ArePlay words.now → result ≡ 0 → (text : List ℕ) × SinkGained (K.held sink.old) (K.held sink.new) (text ++ end_line) }
    // The source's bytes spell a script. It filled a journal, and exactly its text was written, which is the line of that.
    ensures full { ArePlay words.now → result ≡ 7 →
        (s : Meaning) × IsSpelled (S.left source.old) s × IsSpent s (K.held sink.old) (K.held sink.new) }
    // The same of a run, whose journals are sound then.
    ensures filled { (over : RunWire) → AreRun words.now over → result ≡ 7 →
        (s : Meaning) × IsSpelled (S.left source.old) s
        × HasFilled (tells_over over W.End.means.tells) s (K.held sink.old) (K.held sink.new) }
    // And of the script of so many sends and this seed.
    ensures filled_by_gen { (sends seed : ℕ) → AreGen words.now sends seed → result ≡ 7 →
        HasFilled true (generated sends seed) (K.held sink.old) (K.held sink.new) }
    ensures spent { result ≡ 7 → (host : ℕ) × (peer : ℕ) × (entries : ℕ)
        × SinkGained (K.held sink.old) (K.held sink.new) (spent_line host peer entries) }
    // A text that spells a script is answered so by `play`, unless the source or the sink fails or memory runs out.
    ensures plays { ArePlay words.now → (s : Meaning) → IsToldSpelled (S.left source.old) s →
        (HasRisen (S.faults source.old) (S.faults source.new) → ⊥) → (HasRisen (K.faults sink.old) (K.faults sink.new) → ⊥) →
        (result ≡ 0) ⊎ ((result ≡ 6) ⊎ (result ≡ 7)) }

    // Over TCP alone: two hosts of the script that was run lack a stream, the wire counted a fault in this call, and exactly the line that
    // says so was written.
    ensures wire_fault { result ≡ 5 → AreRun words.now wires.Tcp × HasRisen (W.counted tcp.old).faults (W.counted tcp.new).faults
        × ((s : Meaning) × IsSpelled (S.left source.old) s × IsWireFault (wire_seen W.End.means.tells W.counted tcp.old tcp.new) s (K.held sink.old) (K.held sink.new)) }
    // Over TCP alone, and where its ends don't tell their bytes: some datagrams of the hosts of the script aren't acknowledged, at least as many
    // streams ended as its commands cut, no journal is full, and exactly the line that says how many aren't was written. The wire counted in
    // this call 20,000,000 times that no bytes were there, or each two hosts have used up their streams and refused at least three headers
    // together; and it counted that there was no room, or no journal owes anything to its open stream.
    ensures unfinished { result ≡ 8 → AreRun words.now wires.Tcp × (W.End.means.tells ≡ false)
        × ((s : Meaning) × IsSpelled (S.left source.old) s × IsRunUnfinished (wire_seen W.End.means.tells W.counted tcp.old tcp.new) s (K.held sink.old) (K.held sink.new)) }

    // The source's bytes spell a script, which would need so many streams over TCP, and exactly the line that says so was written.
    ensures too_many { result ≡ 9 → AreRun words.now wires.Tcp × ((s : Meaning) × IsSpelled (S.left source.old) s
        × (most_streams < prepared_streams s) × SinkGained (K.held sink.old) (K.held sink.new) (too_many_line (prepared_streams s))) }
    // Such a script is answered so, unless the source or the sink fails or memory runs out.
    ensures refuses_many { AreRun words.now wires.Tcp → (s : Meaning) → IsToldSpelled (S.left source.old) s → most_streams < prepared_streams s →
        (result ≡ 9 × SinkGained (K.held sink.old) (K.held sink.new) (too_many_line (prepared_streams s)))
        ⊎ ((result ≡ 3) ⊎ ((result ≡ 4) ⊎ (result ≡ 6))) }
    // A text that spells a script is run by `run`, unless the source, the sink or the wire over TCP fails or memory runs out. Only over TCP
    // it may be left unfinished, or need too many streams.
    ensures runs { (over : RunWire) → AreRun words.now over → (s : Meaning) → IsToldSpelled (S.left source.old) s →
        (HasRisen (S.faults source.old) (S.faults source.new) → ⊥) → (HasRisen (K.faults sink.old) (K.faults sink.new) → ⊥) →
        (HasRisen (W.counted tcp.old).faults (W.counted tcp.new).faults → ⊥) →
        (result ≡ 0) ⊎ ((result ≡ 6) ⊎ ((result ≡ 7) ⊎ ((over ≡ wires.Tcp) × ((result ≡ 8) ⊎ (result ≡ 9))))) }
    // And so is a generated script by `gen`.
    ensures generates { (sends seed : ℕ) → AreGen words.now sends seed → (HasRisen (K.faults sink.old) (K.faults sink.new) → ⊥) →
        (result ≡ 0) ⊎ ((result ≡ 6) ⊎ (result ≡ 7)) }
    // `gen` takes nothing from the source, and words of no command take nothing from it. Only a run over TCP uses that wire.
    ensures unread { (sends seed : ℕ) → AreGen words.now sends seed → source.new ≡ source.old }
    ensures usage_unread { AreNoCommand words.now → source.new ≡ source.old }
    ensures tcp_unused { (AreRun words.now wires.Tcp → ⊥) → tcp.new ≡ tcp.old }
    // However a run ends, no more ends of streams over TCP are out than before.
    ensures given_back { W.out tcp.new ≤ W.out tcp.old }
    ensures known { result ≤ 9 }
{
    summary_of_words();
    do_work(rt, alloc, words, source, sink, tcp, gate).code()
}

// Does what the words ask for.
fn do_work<S: Source, K: Sink, W: Wire, G: Gate + Sync, R: Threads + Wait + Net + Sync>(
    rt: &R,
    alloc: Global,
    words: &[String],
    source: &mut S,
    sink: &mut K,
    tcp: &mut W,
    gate: &G,
) -> Status
where
    W::End: Send,
    ensures ends { IsEndOfProgram (wire_seen W.End.means.tells W.counted tcp.old tcp.new) words.now
        (source_seen S.left S.faults source.old source.new)
        (sink_seen K.held K.faults sink.old sink.new)
        result }
    ensures emptied { ReadsScript words.now → IsOfScript result → IsReadToEnd (S.left source.old) (S.left source.new) }
    ensures tells { TellsReadFaults (source_seen S.left S.faults source.old source.new) result }
    ensures unread { (sends seed : ℕ) → AreGen words.now sends seed → source.new ≡ source.old }
    ensures usage_unread { AreNoCommand words.now → source.new ≡ source.old }
    ensures tcp_unused { (AreRun words.now wires.Tcp → ⊥) → tcp.new ≡ tcp.old }
    ensures given_back { W.out tcp.new ≤ W.out tcp.old }
{
    match work_of(alloc, words) {
        Ok(Some(Work::Play)) => play_text(rt, alloc, source, sink),
        Ok(Some(Work::Run { wire })) => run_text(rt, alloc, wire, source, sink, tcp, gate),
        Ok(Some(Work::Gen { sends, seed })) => gen_text(rt, alloc, sends, seed, sink, gate),
        Ok(None) => say(sink, USAGE, Status::Usage),
        Err(Memory) => Status::Memory,
    }
}
