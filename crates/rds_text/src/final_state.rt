use rds_model::{Datagram, Journal};

/// A socket in the end: what it handed out in its time, and what it left unread.
#[derive(Drop)]
pub struct Kept {
    /// Its slot. The sockets of a host are numbered from 0, in the order of their binds.
    pub slot: u16,
    /// The port that it was bound to, also where it was closed since.
    pub port: u16,
    /// The datagrams that it handed out, the first one first.
    pub got: Vec<Datagram>,
    /// The datagrams that were delivered to it and never handed out, the first one first.
    pub unread: Vec<Datagram>,
}

/// What a host has in the end.
#[derive(Drop)]
pub struct HostEnd {
    /// Its IPv4 address as a number, 10.0.0.1 for host A.
    pub addr: u32,
    /// The journals that it keeps of its connections, each with the address of the peer.
    pub journals: Vec<(u32, Journal)>,
    /// Its sockets by slot, closed ones too.
    pub kept: Vec<Kept>,
}
