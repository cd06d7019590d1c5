ghost use Rattle.std.specs.Prelude.{◌≤◌, Some, length};
ghost use Rattle.std.specs.Fmt.{WritesOnOk};
ghost use Rattle.std.specs.List.{flat_map};
ghost use Rattle.rds_text.specs.Words.{hex, hex_byte};

use std::{fmt, str};

// How many bytes are written at once, at most.
const PIECE: usize = 64;

/// A byte as two digits of lower-case hexadecimal.
#[derive(Clone, Copy)]
pub struct HexByte(pub u8);

impl fmt::Display for HexByte {
    ghost output = { λ s. Some (hex_byte s.0) };

    fn fmt<W: fmt::Write>(&self, f: &mut fmt::Formatter<W>) -> fmt::Result {
        let byte = self.0;
        write!(f, "{byte:02x}")
    }
}

/// Bytes in lower-case hexadecimal, or a dash where there are none.
#[derive(Clone, Copy)]
pub struct Hex<'a>(pub &'a [u8]);

impl fmt::Display for Hex<'_> {
    ghost output = { λ h. Some (hex h.0.now) };

    fn fmt<W: fmt::Write>(&self, f: &mut fmt::Formatter<W>) -> fmt::Result {
        if self.0.is_empty() {
            return write!(f, "-");
        }
        for piece in self.0.chunks(PIECE) {
            write_digits(f, piece)?;
        }
        Ok(())
    }
}

// Writes at most 64 bytes in hexadecimal, by one call.
fn write_digits<W: fmt::Write>(f: &mut fmt::Formatter<W>, piece: &[u8]) -> fmt::Result
    requires { length piece.now ≤ 64 }
    ensures { WritesOnOk W.write_str_gives f.old result (flat_map hex_byte piece.now) f.new }
{
    let mut room = [0; 2 * PIECE];
    let digits = &mut room[..2 * piece.len()];
    let Ok(()) = hex::encode_to_slice(piece, digits) else {
        unreachable!();
    };
    let Ok(text) = str::from_utf8(digits) else {
        unreachable!();
    };
    f.write_str(text)
}
