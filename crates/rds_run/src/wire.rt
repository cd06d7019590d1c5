/// What the streams of a run go over.
#[derive(Clone, Copy, Debug, PartialEq, Eq)]
pub enum RunWire {
    /// Memory that the hosts share.
    Memory,
    /// TCP connections within the machine.
    Tcp,
}
