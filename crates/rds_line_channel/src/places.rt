//! The end at one place of a list of streams.
ghost use Rattle.std.specs.Prelude.{◌≡◌, ◌≤◌, ◌<◌, ℕ, length, take, drop};
ghost use Rattle.rds_link.specs.Answers.{bytes_got, bytes_put};
ghost use Rattle.rds_link.specs.declared.end.Got.TheVariants as got;
ghost use Rattle.rds_link.specs.declared.end.Put.TheVariants as put;
ghost use Rattle.rds_line_channel.specs.StreamChanges.{ChangesAt, Receives, Sends, IsShutDown};
ghost use Rattle.rds_line_channel.specs.Meeting.{StayPaired};
ghost use Rattle.rds_line_channel.specs.Streams.{EndAt, HasSaidOver, ShutByFaultOnly, numbers};

use rds_link::{End, Got, Put};

// Reads from the end at this place.
pub(crate) fn read_at<E: End>(streams: &mut [(u32, E)], place: usize, buf: &mut [u8]) -> Got
    requires place { place < length streams.old }
    requires by_fault { EndAt (ShutByFaultOnly E.means) place streams.old }
    requires buf { 0 < length buf.old }
    ensures count { (n : ℕ) → result ≡ got.Bytes n → (1 ≤ n) × (n ≤ length buf.old) }
    ensures rest { drop (bytes_got result) buf.new ≡ drop (bytes_got result) buf.old }
    ensures received { ChangesAt (Receives E.means result (take (bytes_got result) buf.new)) place streams.old streams.new }
    ensures over { result ≡ got.Over → EndAt (HasSaidOver E.means) place streams.new }
    ensures numbers { numbers streams.new ≡ numbers streams.old }
    ensures stays { StayPaired E.means streams.old streams.new }
{
    let stream = &mut streams[place];
    stream.1.read(buf)
}

// Writes to the end at this place.
pub(crate) fn write_at<E: End>(streams: &mut [(u32, E)], place: usize, piece: &[u8]) -> Put
    requires place { place < length streams.old }
    requires by_fault { EndAt (ShutByFaultOnly E.means) place streams.old }
    requires piece { 0 < length piece.now }
    ensures count { (n : ℕ) → result ≡ put.Took n → (1 ≤ n) × (n ≤ length piece.now) }
    ensures sent { ChangesAt (Sends E.means result (take (bytes_put result) piece.now)) place streams.old streams.new }
    ensures over { result ≡ put.Over → EndAt (HasSaidOver E.means) place streams.new }
    ensures numbers { numbers streams.new ≡ numbers streams.old }
    ensures stays { StayPaired E.means streams.old streams.new }
{
    let stream = &mut streams[place];
    stream.1.write(piece)
}

// Shuts the end at this place.
pub(crate) fn shut_at<E: End>(streams: &mut [(u32, E)], place: usize)
    requires { place < length streams.old }
    ensures shut { ChangesAt (IsShutDown E.means) place streams.old streams.new }
    ensures numbers { numbers streams.new ≡ numbers streams.old }
    ensures stays { StayPaired E.means streams.old streams.new }
{
    let stream = &mut streams[place];
    stream.1.shut();
}
