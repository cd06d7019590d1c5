//! How large the buffers of a socket may be.

/// The most bytes that a send buffer or a receive buffer may have.
pub const MAX_BUFFER: u32 = 16_777_216;
