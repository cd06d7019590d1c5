/// The flag of a frame that carries a congestion map.
pub const CONG_BITMAP: u8 = 0x01;

/// The flag that asks for an acknowledgement.
pub const ACK_REQUIRED: u8 = 0x02;

/// The flag of a datagram that was pulled on an earlier stream.
pub const RETRANSMITTED: u8 = 0x04;

/// The header of a frame, after `struct rds_header` of rds.h (protocol 3.1): 48 bytes on the wire,
/// every number big-endian.
#[derive(Clone, Copy, Debug, PartialEq, Eq)]
pub struct Header {
    /// The number of a datagram, counted from 1; 0 in a map and in an acknowledgement.
    pub sequence: u64,
    /// The number of the last datagram that the writer has passed on.
    pub ack: u64,
    /// How many bytes of payload follow the header.
    pub len: u32,
    /// The sender's port.
    pub sport: u16,
    /// The receiver's port.
    pub dport: u16,
    /// CONG_BITMAP 0x01, ACK_REQUIRED 0x02, RETRANSMITTED 0x04.
    pub flags: u8,
    /// Credit for a transport with windows (rds.h). It is kept as it came, and always written as 0.
    pub credit: u8,
    /// Unused bytes. They are kept as they came, and always written as 0.
    pub padding: [u8; 4],
    /// The Internet checksum of the header, or 0 where the writer made none.
    pub csum: u16,
    /// Extensions, one after another, each a byte for its kind and then its data; 0 ends them.
    pub ext: [u8; 16],
}
