ghost use Rattle.std.specs.Prelude.{◌≡◌};
ghost use Rattle.rds_run.specs.ExitStatus.{code};

/// How the program ended: the status that it exits with.
#[derive(Clone, Copy, Debug, PartialEq, Eq)]
pub enum Status {
    /// The whole text was written.
    Written = 0,
    /// The script is refused.
    Refused = 1,
    /// The words are none of a command.
    Usage = 2,
    /// The source failed.
    ReadFault = 3,
    /// The sink failed.
    WriteFault = 4,
    /// Two hosts lack a stream that they should have.
    WireFault = 5,
    /// Memory ran out.
    Memory = 6,
    /// A journal is full.
    Spent = 7,
    /// A run stopped while some datagrams weren't acknowledged.
    Unfinished = 8,
    /// A script would need more streams than may be prepared for a run over TCP.
    TooManyStreams = 9,
}

impl Status {
    /// The number that the program exits with.
    pub fn code(self) -> u8
        ensures { result ≡ code self }
    {
        self as u8
    }
}
