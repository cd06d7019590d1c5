ghost use Rattle.std.specs.Prelude.{◌≡◌, ◌<◌, Some};
ghost use Rattle.rds_text.specs.Words.{host_name, slot_name};

use std::fmt;

/// The most hosts that a script may have.
pub const MAX_HOSTS: u8 = 8;

/// A host by its letter: A for host 0, B for host 1 and so on.
#[derive(Clone, Copy)]
pub struct HostName {
    pub host: u8,
    ghost has_letter: { host < 26 },
}

impl HostName {
    /// The name of a host, counted from 0.
    pub fn new(host: u8) -> HostName
        requires { host < 26 }
        ensures { result.host ≡ host }
    {
        HostName { host }
    }
}

impl fmt::Display for HostName {
    ghost output = { λ h. Some (host_name h.host) };

    fn fmt<W: fmt::Write>(&self, f: &mut fmt::Formatter<W>) -> fmt::Result {
        let letter = char::from(b'A' + self.host);
        write!(f, "{letter}")
    }
}

/// A slot by its number, or a dash for the slot 65,535 that no socket has.
#[derive(Clone, Copy)]
pub struct SlotName(pub u16);

impl fmt::Display for SlotName {
    ghost output = { λ s. Some (slot_name s.0) };

    fn fmt<W: fmt::Write>(&self, f: &mut fmt::Formatter<W>) -> fmt::Result {
        let slot = self.0;
        if slot == 65535 {
            write!(f, "-")
        } else {
            write!(f, "{slot}")
        }
    }
}
