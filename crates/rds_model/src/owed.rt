/// How many datagrams may go unasked: one more asks for an acknowledgement.
pub const MAX_UNASKED: usize = 7;

/// How many bytes of payload may go unasked.
pub const MAX_UNASKED_BYTES: u64 = 16_777_216;
