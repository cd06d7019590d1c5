use rds_wire::Payload;

/// What a socket or the program asks of a connection.
#[derive(Drop)]
pub enum Order {
    /// Accept a datagram from the socket of a slot, which has the port `sport`, to the peer's port `dport`.
    Send {
        /// The slot of the sending socket, below `MAX_SLOTS`.
        slot: u16,
        /// Its port.
        sport: u16,
        /// The peer's port that the datagram goes to.
        dport: u16,
        /// Its bytes, at most 1,048,576.
        payload: Payload,
    },
    /// Take back what the socket of a slot has sent to a port.
    Cancel {
        /// The slot of the socket.
        slot: u16,
        /// The peer's port.
        dport: u16,
    },
    /// Take back all that the socket of a slot has sent, since it closes.
    CloseSocket {
        /// The slot of the socket.
        slot: u16,
    },
    /// Cut the stream.
    Cut,
}

/// A datagram as a socket receives it.
#[derive(Drop)]
pub struct Datagram {
    /// The IPv4 address of the sender.
    pub from: u32,
    /// The port of the sending socket.
    pub sport: u16,
    /// The port that it was sent to.
    pub dport: u16,
    /// Its bytes.
    pub payload: Payload,
}

/// A sending socket's address and port, and a receiving one's.
#[derive(Clone, Copy, Debug, PartialEq, Eq)]
pub struct Pair {
    /// The IPv4 address of the sender.
    pub from: u32,
    /// The port of the sending socket.
    pub sport: u16,
    /// The IPv4 address of the receiver.
    pub to: u32,
    /// The port of the receiving socket.
    pub dport: u16,
}
