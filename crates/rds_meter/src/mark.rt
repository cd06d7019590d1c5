ghost use Rattle.std.specs.Prelude.{◌≡◌, IsTrue, ◌↔◌, ◌+◌, ◌/◌, ◌<◌, ◌&&◌, nat_lt};

/// A change of a port's congestion bit, and the three numbers that a check found and that are its ground. All are in bytes.
#[derive(Clone, Copy, Debug, PartialEq, Eq)]
pub struct Mark {
    /// The port whose bit it is.
    pub port: u16,
    /// Whether the bit is to be raised.
    pub set: bool,
    /// Bytes put into the mailbox of the slot that holds the port.
    pub put: u64,
    /// Bytes taken out of it.
    pub taken: u64,
    /// The receive limit, or 0 where none is set.
    pub limit: u64,
}

impl Mark {
    /// Whether a limit is set and more bytes are queued than it allows.
    pub fn is_over(&self) -> bool
        ensures { result ≡ (nat_lt 0 self.now.limit && nat_lt (self.now.taken + self.now.limit) self.now.put) }
    {
        self.limit > 0 && self.put > self.taken && self.put - self.taken > self.limit
    }

    /// Whether fewer bytes are queued than half the limit, rounded down.
    pub fn is_below_half(&self) -> bool
        ensures { result ≡ nat_lt self.now.put (self.now.taken + self.now.limit / 2) }
    {
        self.put < self.taken || self.put - self.taken < self.limit / 2
    }
}
