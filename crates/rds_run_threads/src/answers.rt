//! What a run writes at its end.
ghost use Rattle.std.specs.Prelude.{◌≡◌, ◌<◌, IfOk, OnErr, string_bytes};
ghost use Rattle.rds_link.specs.Seen.{sink_seen};
ghost use Rattle.std.specs.List.{flat_map};
ghost use Rattle.rds_model.specs.Past.{newest_stream};
ghost use Rattle.rds_text.specs.FinalViews.{AreFinalHosts, host_views};
ghost use Rattle.rds_text.specs.Lines.{spent_line as line_of_spent};
ghost use Rattle.rds_run_threads.specs.Ends.{Writes};
ghost use Rattle.rds_run_threads.specs.Texts.{fault_line, text_of as text_of_form, unfinished_line};
ghost use Rattle.rds_run_threads.specs.declared.form.RunEnd.TheVariants as ended;

use crate::form::{Form, RunEnd};
use crate::writing::write_texts;
use rds_link::{Sink, write_all};
use rds_model::Journal;
use rds_report::{report_parts, summary};
use rds_run_rounds::last_stream;
use rds_text::{HostEnd, HostName, spent_line};
use rds_wire::Memory;
use std::alloc::Global;
use std::thread::Threads;

/// Writes the text of a run that came to its end.
pub(crate) fn end_by_report<K: Sink, R: Threads + Sync>(
    rt: &R,
    alloc: Global,
    form: Form,
    ends: Vec<HostEnd>,
    sink: &mut K,
) -> Result<RunEnd, Memory>
    requires { AreFinalHosts (host_views ends.items) }
    ensures end { IfOk result (Writes
        (sink_seen K.held K.faults sink.old sink.new)
        (text_of_form form (host_views ends.items)) (ended.Ok ends)) }
    ensures memory { OnErr result (K.held sink.new ≡ K.held sink.old) }
{
    let texts = texts_of(rt, alloc, form, &ends)?;
    match write_texts(sink, &texts) {
        Ok(()) => Ok(RunEnd::Ok { ends }),
        Err(_) => Ok(RunEnd::WriteFault),
    }
}

// The text of a run that came to its end, in texts that are written one behind another.
fn texts_of<R: Threads + Sync>(
    rt: &R,
    alloc: Global,
    form: Form,
    ends: &[HostEnd],
) -> Result<Vec<String>, Memory>
    requires { AreFinalHosts (host_views ends.now) }
    ensures { IfOk result (λ texts. flat_map string_bytes texts.items ≡ text_of_form form (host_views ends.now)) }
{
    match form {
        Form::Report => report_parts(rt, alloc, ends),
        Form::Summary { seed, sends } => {
            let mut text = String::new(alloc);
            summary(rt, alloc, &mut text, ends, seed, sends)?;
            Ok(vec![in alloc; text]?)
        }
    }
}

/// Writes the line of a run some of whose datagrams aren't acknowledged.
pub(crate) fn end_unfinished<K: Sink>(
    alloc: Global,
    count: u64,
    ends: Vec<HostEnd>,
    sink: &mut K,
) -> Result<RunEnd, Memory>
    ensures end { IfOk result (Writes
        (sink_seen K.held K.faults sink.old sink.new)
        (unfinished_line count) (ended.Unfinished count ends)) }
    ensures memory { OnErr result (K.held sink.new ≡ K.held sink.old) }
{
    let text = format!(in alloc; "unfinished {count}\n")?;
    Ok(write(sink, text.as_str(), RunEnd::Unfinished { count, ends }))
}

/// Writes the line of two hosts that lack a stream. The journals are theirs, that of the first before the other.
pub(crate) fn end_by_fault<K: Sink>(
    alloc: Global,
    low: u8,
    high: u8,
    own: Journal,
    other: Journal,
    sink: &mut K,
) -> Result<RunEnd, Memory>
    requires low { low < 26 }
    requires high { high < 26 }
    ensures end { IfOk result (Writes
        (sink_seen K.held K.faults sink.old sink.new)
        (fault_line low high (newest_stream own.past)) (ended.WireFault low high (newest_stream own.past) own other)) }
    ensures memory { OnErr result (K.held sink.new ≡ K.held sink.old) }
{
    let stream = last_stream(&own);
    let text = fault_text(alloc, low, high, stream)?;
    let end = RunEnd::WireFault {
        low,
        high,
        stream,
        own,
        other,
    };
    Ok(write(sink, text.as_str(), end))
}

// The line of two hosts that lack a stream.
fn fault_text(alloc: Global, low: u8, high: u8, stream: u32) -> Result<String, Memory>
    requires low { low < 26 }
    requires high { high < 26 }
    ensures { IfOk result (λ text. string_bytes text ≡ fault_line low high stream) }
{
    let low = HostName::new(low);
    let high = HostName::new(high);
    Ok(format!(in alloc; "wire fault {low} {high} after k={stream}\n")?)
}

/// Writes the line of a journal that is full.
pub(crate) fn end_by_spent<K: Sink>(
    alloc: Global,
    host: u8,
    peer: u8,
    entries: u32,
    own: Journal,
    other: Journal,
    sink: &mut K,
) -> Result<RunEnd, Memory>
    requires host { host < 26 }
    requires peer { peer < 26 }
    ensures end { IfOk result (Writes
        (sink_seen K.held K.faults sink.old sink.new)
        (line_of_spent host peer entries) (ended.Spent host peer entries own other)) }
    ensures memory { OnErr result (K.held sink.new ≡ K.held sink.old) }
{
    let mut text = String::new(alloc);
    spent_line(&mut text, host, peer, entries)?;
    let end = RunEnd::Spent {
        host,
        peer,
        entries,
        own,
        other,
    };
    Ok(write(sink, text.as_str(), end))
}

// Writes the whole text, and answers how that ended.
fn write<K: Sink>(sink: &mut K, text: &str, end: RunEnd) -> RunEnd
    ensures { Writes
        (sink_seen K.held K.faults sink.old sink.new)
        text.now end result }
{
    match write_all(sink, text.as_bytes()) {
        Ok(()) => end,
        Err(_) => RunEnd::WriteFault,
    }
}
