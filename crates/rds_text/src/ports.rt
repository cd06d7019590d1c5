ghost use Rattle.std.specs.Prelude.{◌≡◌, ◌≤◌, ◌^◌, ◌*◌, ◌+◌, ◌∷◌, [], Some, length};
ghost use Rattle.std.specs.Fmt.{WritesOnOk};
ghost use Rattle.rds_text.specs.Words.{numbers, listed};
ghost use Rattle.rds_text.specs.Ports.{set_ports, ports_of_byte};

use std::fmt;

/// The set ports of a congestion map: their numbers with commas between them, or a dash where there are none. Port p
/// is bit p mod 8 of byte p div 8, the least bit being bit 0.
#[derive(Clone, Copy)]
pub struct PortSet<'a> {
    pub bytes: &'a [u8],
    ghost short: { length bytes.now ≤ 2 ^ 32 },
}

impl PortSet<'_> {
    /// The set ports of the bytes of a map.
    pub fn new(bytes: &[u8]) -> PortSet<'_>
        requires { length bytes.now ≤ 2 ^ 32 }
        ensures { result.bytes.now ≡ bytes.entry.now }
    {
        PortSet { bytes }
    }
}

impl fmt::Display for PortSet<'_> {
    ghost output = { λ s. Some (numbers (set_ports s.bytes.now)) };

    fn fmt<W: fmt::Write>(&self, f: &mut fmt::Formatter<W>) -> fmt::Result {
        let mut any = false;
        let mut first = 0u64;
        for byte in self.bytes {
            if *byte != 0 {
                write_byte(f, any, first, *byte)?;
                any = true;
            }
            first += 8;
        }
        if any { Ok(()) } else { write!(f, "-") }
    }
}

/// Writes the set ports of a byte whose least bit is port `first`. `any` says that ports stand before them.
fn write_byte<W: fmt::Write>(
    f: &mut fmt::Formatter<W>,
    any: bool,
    first: u64,
    byte: u8,
) -> fmt::Result
    requires { first ≤ 2 ^ 36 }
    ensures { WritesOnOk W.write_str_gives f.old result (listed any (ports_of_byte first byte)) f.new }
{
    let mut any = any;
    for bit in 0..8u64 {
        if (byte >> bit) & 1 == 1 {
            write_port(f, any, first + bit)?;
            any = true;
        }
    }
    Ok(())
}

/// Writes a port, with a comma before it where `any` says that others stand before it.
fn write_port<W: fmt::Write>(f: &mut fmt::Formatter<W>, any: bool, port: u64) -> fmt::Result
    ensures { WritesOnOk W.write_str_gives f.old result (listed any (port ∷ [])) f.new }
{
    if any {
        write!(f, ",{port}")
    } else {
        write!(f, "{port}")
    }
}
