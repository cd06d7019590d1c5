ghost use Rattle.std.specs.Prelude.{◌≡◌};
ghost use Rattle.rds_model.specs.Alive.{aims_at};
ghost use Rattle.rds_model.specs.Past.{passes};

use rds_wire::{Frame, Header, Malformed, Payload};

/// The slot that owns pongs. No socket has it.
pub const NO_SLOT: u16 = 65535;

/// How many sockets a host has at most: the slots are those below it. This project's own.
pub const MAX_SLOTS: u16 = 1024;

/// One event of a connection, as one end saw it. A journal is the list of them.
#[derive(Drop)]
pub enum Entry {
    /// A datagram was accepted from a socket. The n-th of a journal has number n.
    Accept {
        /// The slot of the sending socket, or `NO_SLOT` for a pong.
        slot: u16,
        /// The port of the sending socket, or 0 for a pong.
        sport: u16,
        /// The peer's port that the datagram goes to.
        dport: u16,
        /// Its bytes, at most 1,048,576.
        payload: Payload,
    },
    /// The datagrams of a socket that aren't acknowledged yet were taken back: those to one port, or all.
    Cancel {
        /// The slot of the socket.
        slot: u16,
        /// Which of its datagrams.
        target: Target,
    },
    /// A stream to the peer was opened.
    Open {
        /// Its number, above those of all earlier streams.
        stream: u32,
    },
    /// A frame was handed to the stream.
    Pull {
        /// The number of the stream.
        stream: u32,
        /// The frame.
        frame: Frame,
    },
    /// A whole frame came from the stream, and this became of it.
    Read {
        /// The number of the stream.
        stream: u32,
        /// The frame.
        frame: Frame,
        /// What became of it.
        outcome: Outcome,
    },
    /// The stream was shut.
    Shut {
        /// The number of the stream.
        stream: u32,
    },
    /// A malformed header came, which ended the stream.
    Bad {
        /// The number of the stream.
        stream: u32,
        /// The header.
        header: Header,
        /// The first thing that is wrong with it.
        cause: Malformed,
    },
}

/// Which datagrams of a socket a cancellation covers.
#[derive(Clone, Copy, Debug, PartialEq, Eq)]
pub enum Target {
    /// Those to one port of the peer.
    Port(u16),
    /// All of them.
    All,
}

impl Target {
    /// Whether a cancellation with this target covers a datagram to the port.
    pub fn covers(self, dport: u16) -> bool
        ensures { result ≡ aims_at self dport }
    {
        match self {
            Target::Port(port) => port == dport,
            Target::All => true,
        }
    }
}

/// What became of a frame that was read.
#[derive(Clone, Copy, Debug, PartialEq, Eq)]
pub enum Outcome {
    /// A copy of a datagram that had been passed on already.
    Old,
    /// A datagram to a port that no socket held.
    NoSocket,
    /// A datagram that went to the socket of this slot.
    Slot(u16),
    /// A datagram to port 0, which an empty one answers.
    Ping,
    /// A datagram from port 0 to port 0.
    Void,
    /// An acknowledgement without data.
    AckOnly,
    /// A congestion map.
    Map,
    /// A congestion map of a wrong length.
    OddMap,
}

impl Outcome {
    /// Whether the number of a datagram that was read with this outcome becomes the last one passed on: each but an old
    /// copy's.
    pub fn passes(self) -> bool
        ensures { result ≡ passes self }
    {
        match self {
            Outcome::NoSocket | Outcome::Slot(_) | Outcome::Ping | Outcome::Void => true,
            Outcome::Old | Outcome::AckOnly | Outcome::Map | Outcome::OddMap => false,
        }
    }
}

/// What has to become of a frame that waits.
#[derive(Clone, Copy, Debug, PartialEq, Eq)]
pub enum Verdict {
    /// A datagram that belongs to whichever socket holds the port: the only verdict that asks for a look-up.
    Deliver {
        /// The port.
        dport: u16,
    },
    /// A copy of a datagram that was passed on already: it is read, and goes to no socket.
    Old,
    /// A datagram to port 0 from another port: an empty one goes back.
    Ping,
    /// A datagram from port 0 to port 0: nothing answers it.
    Void,
    /// An acknowledgement without data.
    AckOnly,
    /// A congestion map of the peer.
    Map,
    /// A congestion map of a wrong length, which says nothing.
    OddMap,
}

/// A datagram that is accepted and not acknowledged, by its number and the place of its `Accept` in the journal.
#[derive(Clone, Copy, Debug, PartialEq, Eq)]
pub struct Msg {
    /// Its number on the connection, from 1.
    pub num: u64,
    /// How many entries stood in the journal before its `Accept`.
    pub place: u32,
    /// The slot of the socket that sent it, or `NO_SLOT` for a pong.
    pub slot: u16,
    /// The port of the peer that it goes to.
    pub dport: u16,
    /// How many bytes its payload has.
    pub len: u32,
}
