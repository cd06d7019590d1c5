ghost use Rattle.std.specs.Prelude.{◌≡◌, ◌<◌, ◌≤◌, ◌^◌, length};
ghost use Rattle.rds_model.specs.Alive.{alive_numbers};
ghost use Rattle.rds_model.specs.Past.{accepted, highest_pulled, last_passed, newest_stream};
ghost use Rattle.rds_model.specs.Alive.{alive_bytes};

use super::Conn;

impl Conn {
    /// The number of the stream that was opened last, or 0 where none was.
    pub fn newest_stream(&self) -> u32
        ensures { result ≡ newest_stream self.now.log.past }
    {
        self.newest
    }

    /// How many datagrams were accepted, pongs among them. It is the number of the last one.
    pub fn accepted(&self) -> u64
        ensures { result ≡ accepted self.now.log.past }
    {
        self.accepted
    }

    /// The highest number of a datagram that was ever pulled, or 0.
    pub fn highest(&self) -> u64
        ensures { result ≡ highest_pulled self.now.log.past }
    {
        self.highest
    }

    /// The number of the last datagram that was read and passed, or 0. It is what frames acknowledge.
    pub fn last_passed(&self) -> u64
        ensures { result ≡ last_passed self.now.log.past }
    {
        self.last
    }

    /// How many accepted datagrams are neither acknowledged nor taken back.
    pub fn unacked(&self) -> u32
        ensures { result ≡ length (alive_numbers self.now.log.past) }
    {
        self.store.len()
    }

    /// How many bytes the accepted datagrams of a socket have in all that are neither acknowledged nor taken back. It
    /// takes the same time whatever their number.
    pub fn unacked_bytes(&self, slot: u16) -> u64
        requires { slot < self.now.slots }
        ensures bytes { result ≡ alive_bytes slot self.now.log.past }
        ensures most { result ≤ 2 ^ 52 }
    {
        self.charges.of(slot) - self.freed.of(slot)
    }
}
