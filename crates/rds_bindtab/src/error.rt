use thiserror::Error;

/// Why a port wasn't bound.
#[derive(Clone, Copy, Debug, PartialEq, Eq, Error)]
pub enum BindError {
    /// Ports 0 and 1 can't be bound.
    #[error("port {port} is reserved")]
    Reserved { port: u16 },
    /// The port's word was found to be 1 plus the slot that holds it.
    #[error("the port is in use: its word is {word}")]
    InUse { word: u64 },
    /// Each port was found in use.
    #[error("no port is free")]
    NoneFree,
}

/// The number that was drawn names no slot, since the table has too few.
#[derive(Clone, Copy, Debug, PartialEq, Eq, Error)]
#[error("no slot is left: the number drawn is {found}")]
pub struct NoSlot {
    pub found: u64,
}
