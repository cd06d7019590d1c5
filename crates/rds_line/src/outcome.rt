//! What a turn of a line answers, and what its steps did.
ghost use Rattle.std.specs.Prelude.{◌≡◌, ◌||◌};
ghost use Rattle.rds_line.specs.Turns.{is_bytes_heard, is_bytes_sent};

/// What a turn of a line did.
#[derive(Clone, Copy, Debug, PartialEq, Eq)]
pub enum Turn {
    /// An order was taken, bytes came or went, or the journal has more entries.
    Moved,
    /// There was nothing to do.
    Idle,
    /// No order is there, no stream is open, and none is left.
    Over,
    /// The journal has so many entries, and two more would pass its limit. Nothing is lost.
    Spent { entries: u32 },
    /// Memory ran out. Nothing is lost, and the next turn goes on from here.
    Memory,
}

// What a turn found at the open stream when it read.
#[derive(Clone, Copy, PartialEq, Eq)]
pub(crate) enum Heard {
    /// Bytes came.
    Bytes,
    /// No bytes were there.
    Nothing,
    /// The stream has ended, or a header that came was refused.
    Ended,
    /// No stream is open.
    Closed,
}

// What a turn did when it had its chance to write.
#[derive(Clone, Copy, PartialEq, Eq)]
pub(crate) enum Sent {
    /// Bytes went.
    Bytes,
    /// Nothing is owed, so nothing is to be written.
    Nothing,
    /// Bytes are to be written, and there is no room for them now.
    Full,
    /// The stream has ended.
    Ended,
    /// No stream is open.
    Closed,
}

// What the steps of a turn did.
#[derive(Clone, Copy)]
pub(crate) struct Done {
    /// Whether an order was taken.
    pub took: bool,
    pub heard: Heard,
    pub sent: Sent,
}

impl Done {
    // Whether anything was taken, came or went.
    pub fn moved(self) -> bool
        ensures { result ≡ (self.took || (is_bytes_heard self.heard || is_bytes_sent self.sent)) }
    {
        self.took || self.heard == Heard::Bytes || self.sent == Sent::Bytes
    }
}
