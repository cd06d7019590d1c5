ghost use Rattle.std.specs.Prelude.{◌≡◌, ◌⊎◌};
ghost use Rattle.rds_link.specs.Streaming.{HasRisen, SinkGained, SinkGainedFront};
ghost use Rattle.rds_run.specs.declared.status.Status.TheVariants as ended;

use crate::status::Status;
use rds_link::{Sink, write_all};

/// Writes a text line that is the whole answer, and gives the status that goes with it, or `WriteFault` where the sink
/// fails, which then took a beginning of the line.
pub fn say<K: Sink>(sink: &mut K, line: &str, status: Status) -> Status
    ensures said { (result ≡ status × SinkGained (K.held sink.old) (K.held sink.new) line.now)
        ⊎ (result ≡ ended.WriteFault × HasRisen (K.faults sink.old) (K.faults sink.new)) }
    ensures front { SinkGainedFront (K.held sink.old) (K.held sink.new) line.now }
{
    match write_all(sink, line.as_bytes()) {
        Ok(()) => status,
        Err(_) => Status::WriteFault,
    }
}
