//! Writing texts one behind another.
ghost use Rattle.std.specs.Prelude.{OnErr, OnOk, string_bytes};
ghost use Rattle.std.specs.List.{flat_map};
ghost use Rattle.rds_link.specs.Streaming.{HasRisen, SinkGained, SinkGainedFront};

use rds_link::{Failed, Sink, write_all};

/// Writes the whole of texts, one behind another. After a fault a beginning of them is written.
pub(crate) fn write_texts<K: Sink>(sink: &mut K, texts: &[String]) -> Result<(), Failed>
    ensures ok { OnOk result (SinkGained (K.held sink.old) (K.held sink.new) (flat_map string_bytes texts.now)) }
    ensures front { OnErr result (SinkGainedFront (K.held sink.old) (K.held sink.new) (flat_map string_bytes texts.now)) }
    ensures failed { OnErr result (HasRisen (K.faults sink.old) (K.faults sink.new)) }
{
    for text in texts {
        write_all(sink, text.as_bytes())?;
    }
    Ok(())
}
