/// What a look finds of a port.
#[derive(Clone, Copy, Debug, PartialEq, Eq)]
pub struct Seen {
    /// Which of the published maps was found, counted from 1. Version 0 has every port clear.
    pub version: u64,
    /// Whether the port is congested in that map.
    pub set: bool,
}
