use rds_wire::Memory;
use thiserror::Error;

/// The host has no connection with the peer.
#[derive(Clone, Copy, Debug, Drop, PartialEq, Eq, Error)]
#[error("this host has no connection with the host of address {peer:#010x}")]
pub struct NoRoute {
    pub peer: u32,
}

/// Why an order without a payload wasn't put on a peer's order queue.
#[derive(Clone, Copy, Debug, PartialEq, Eq, Error)]
pub enum CancelError {
    /// The peer isn't in the host's list.
    #[error("this host has no connection with the host of address {peer:#010x}")]
    NoRoute { peer: u32 },
    /// Nothing was put. The call may be made again.
    #[error("memory ran out before the order was queued; nothing was sent, so try again")]
    Memory,
}
