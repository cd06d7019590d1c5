ghost use Rattle.std.specs.Prelude.{◌≡◌, ◌≤◌, ◌<◌, List, ℕ, Option, length, take, IfOk, OnOk, OnErr};
ghost use Rattle.rds_link.specs.Streaming.{HasRisen, SinkGained, SinkGainedFront, TellsSame};

use crate::Failed;

/// Where bytes go to.
pub trait Sink {
    /// The bytes that the sink holds, where it tells.
    ghost held: { Self → Option (List ℕ) };

    /// How many faults there were.
    ghost faults: { Self → ℕ };

    /// Writes some bytes from the front of `piece`, which isn't empty: at least one.
    fn write(&mut self, piece: &[u8]) -> Result<usize, Failed>
        requires { 0 < length piece.now }
        ensures some { IfOk result (λ n. 1 ≤ n) }
        ensures count { IfOk result (λ n. n ≤ length piece.now) }
        ensures bytes { IfOk result (λ n. SinkGained (held self.old) (held self.new) (take n piece.now)) }
        ensures kept { OnErr result (TellsSame (held self.old) (held self.new)) }
        ensures failed { OnErr result (HasRisen (faults self.old) (faults self.new)) }
        ensures quiet { OnOk result (faults self.new ≡ faults self.old) }
        ensures counts { faults self.old ≤ faults self.new };
}

/// Writes all the bytes.
///
/// # Errors
///
/// `Failed` at the first fault of the sink. A beginning of the bytes is written.
pub fn write_all<K: Sink>(sink: &mut K, bytes: &[u8]) -> Result<(), Failed>
    ensures ok { OnOk result (SinkGained (K.held sink.old) (K.held sink.new) bytes.now) }
    ensures front { SinkGainedFront (K.held sink.old) (K.held sink.new) bytes.now }
    ensures failed { OnErr result (HasRisen (K.faults sink.old) (K.faults sink.new)) }
    ensures quiet { OnOk result (K.faults sink.new ≡ K.faults sink.old) }
    ensures counts { K.faults sink.old ≤ K.faults sink.new }
{
    let mut written = 0;
    while written < bytes.len() {
        match sink.write(&bytes[written..]) {
            Ok(count) => written += count,
            Err(failed) => return Err(failed),
        }
    }
    Ok(())
}
