//! Why a datagram is refused.
use thiserror::Error;

/// Why a datagram wasn't sent. After each refusal nothing was sent, and the payload is handed back.
#[derive(Clone, Copy, Debug, PartialEq, Eq, Error)]
pub enum SendError {
    /// The payload is longer than the send buffer, or than `MAX_LENGTH` of rds_wire.
    #[error("the datagram has {len} bytes, and this socket can send at most {limit}: split it, or bind with a larger send buffer")]
    TooLong { len: u32, limit: u32 },
    /// The peer isn't in the host's list.
    #[error("this host has no connection with the host of address {peer:#010x}")]
    NoRoute { peer: u32 },
    /// The peer's map of this version has the port congested.
    #[error("port {port} of the peer is congested (map version {version}): wait until its owner has received more, then send again")]
    Congested { port: u16, version: u64 },
    /// So many bytes that were sent earlier aren't acknowledged or cancelled yet.
    #[error("{queued} bytes of the {limit} in the send buffer are in use, and {len} more don't fit: send again once the peer has acknowledged some")]
    SendFull { queued: u64, len: u32, limit: u32 },
    /// Memory ran out. The call may be made again.
    #[error("memory ran out before the datagram was queued: send again once some was freed")]
    Memory,
}
