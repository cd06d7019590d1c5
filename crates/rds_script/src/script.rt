use rds_wire::Payload;

/// The most bytes that a text may have.
pub const MAX_TEXT: usize = 16_777_216;

/// The most lines that a text may have, skipped ones too.
pub const MAX_LINES: u32 = 200_000;

/// The most bytes that the payload of one send may have.
pub const MAX_PAYLOAD: u32 = 2_097_152;

/// The most payload bytes that all sends together may have.
pub const MAX_TOTAL: u32 = 16_777_216;

/// The most lines `cut` that a script may have.
pub const MAX_CUTS: u32 = 1024;

/// What a text says: so many hosts, and what they are to do.
#[derive(Drop)]
pub struct Script {
    /// How many hosts there are, 2 to 8.
    pub hosts: u8,
    /// The line of `hosts`, counted from 1.
    pub hosts_line: u32,
    /// The other commands, in the order of the text.
    pub commands: Vec<Placed>,
}

/// A command and its line in the text, counted from 1.
#[derive(Drop)]
pub struct Placed {
    pub line: u32,
    pub command: Command,
}

/// What a host, or the whole network, is to do. Hosts are counted from 0.
#[derive(Drop)]
pub enum Command {
    /// A socket of the host is bound to the port, with the limits of its buffers in bytes.
    Bind {
        host: u8,
        port: u16,
        sndbuf: u32,
        rcvbuf: u32,
    },
    /// The same at the first free port from `port` upward.
    BindAny {
        host: u8,
        port: u16,
        sndbuf: u32,
        rcvbuf: u32,
    },
    /// The socket at the port sends a datagram to port `dport` of host `to`.
    Send {
        host: u8,
        port: u16,
        to: u8,
        dport: u16,
        payload: Payload,
    },
    /// The socket at the port receives a datagram.
    Recv {
        host: u8,
        port: u16,
    },
    /// What the socket at the port sent to port `dport` of host `to` is cancelled.
    Cancel {
        host: u8,
        port: u16,
        to: u8,
        dport: u16,
    },
    /// The socket at the port is closed.
    Close {
        host: u8,
        port: u16,
    },
    /// The two hosts open a stream.
    Open {
        host: u8,
        to: u8,
    },
    /// At most so many bytes go from the first host to the other.
    Move {
        host: u8,
        to: u8,
        bytes: u32,
    },
    /// The stream between the two hosts is lost.
    Cut {
        host: u8,
        to: u8,
    },
    /// All streams are opened, and bytes go until nothing is left to move.
    Drain,
}
