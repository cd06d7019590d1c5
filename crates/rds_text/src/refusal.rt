ghost use Rattle.std.specs.Prelude.{◌≡◌, ◌++◌, ◌<◌, OnOk, Some, string_bytes};
ghost use Rattle.rds_text.specs.Refusals.{pair_refused_line as line_of_pair, send_refused_line as line_of_send, socket_refused_line as line_of_socket, refusal_text};

use crate::HostName;
use rds_wire::Memory;
use std::fmt;

/// Why a command is refused. Its text is a word, and the numbers that go with it.
#[derive(Clone, Copy, Debug, PartialEq, Eq)]
pub enum Refusal {
    /// The host has bound as many sockets as it may.
    NoSlot,
    /// Ports 0 and 1 can't be bound.
    Reserved,
    /// A socket holds the port: 1 plus its slot.
    InUse { word: u64 },
    /// No socket of the host is bound to the port.
    NoSocket,
    /// The payload has `len` bytes, and a datagram from this socket may have `limit`.
    TooLong { len: u64, limit: u64 },
    /// A host has no connection with itself.
    NoRoute,
    /// The port is congested in the last map that was read from the peer, which is the one of this number, from 1.
    Congested { version: u64 },
    /// The send buffer of `limit` bytes has `queued`, and no room for `len` more.
    Full { queued: u64, len: u64, limit: u64 },
    /// A stream is open already.
    Open,
    /// No stream is open.
    Down,
}

impl fmt::Display for Refusal {
    ghost output = { λ r. Some (refusal_text r) };

    fn fmt<W: fmt::Write>(&self, f: &mut fmt::Formatter<W>) -> fmt::Result {
        match *self {
            Refusal::NoSlot => write!(f, "no-slot"),
            Refusal::Reserved => write!(f, "reserved"),
            Refusal::InUse { word } => write!(f, "in-use {word}"),
            Refusal::NoSocket => write!(f, "no-socket"),
            Refusal::TooLong { len, limit } => write!(f, "too-long {len} {limit}"),
            Refusal::NoRoute => write!(f, "no-route"),
            Refusal::Congested { version } => write!(f, "congested {version}"),
            Refusal::Full { queued, len, limit } => write!(f, "full {queued} {len} {limit}"),
            Refusal::Open => write!(f, "open"),
            Refusal::Down => write!(f, "down"),
        }
    }
}

/// The line of a send that is refused.
///
/// # Errors
///
/// Where there is no memory for the line.
pub fn send_refused_line(
    text: &mut String,
    host: u8,
    port: u16,
    to: u8,
    dport: u16,
    refusal: Refusal,
) -> Result<(), Memory>
    requires host { host < 26 }
    requires peer { to < 26 }
    ensures { OnOk result (string_bytes text.new ≡ string_bytes text.old ++ line_of_send host port to dport (refusal_text refusal)) }
{
    let host = HostName::new(host);
    let to = HostName::new(to);
    writeln!(text, "send {host}:{port} {to}:{dport} refused {refusal}")?;
    Ok(())
}

/// The line of a command on a socket that is refused: `verb` is the command's word.
///
/// # Errors
///
/// Where there is no memory for the line.
pub fn socket_refused_line(
    text: &mut String,
    verb: &str,
    host: u8,
    port: u16,
    refusal: Refusal,
) -> Result<(), Memory>
    requires { host < 26 }
    ensures { OnOk result (string_bytes text.new ≡ string_bytes text.old ++ line_of_socket verb.now host port (refusal_text refusal)) }
{
    let host = HostName::new(host);
    writeln!(text, "{verb} {host} {port} refused {refusal}")?;
    Ok(())
}

/// The line of a command on a pair of hosts that is refused: `verb` is the command's word.
///
/// # Errors
///
/// Where there is no memory for the line.
pub fn pair_refused_line(
    text: &mut String,
    verb: &str,
    host: u8,
    peer: u8,
    refusal: Refusal,
) -> Result<(), Memory>
    requires host { host < 26 }
    requires peer { peer < 26 }
    ensures { OnOk result (string_bytes text.new ≡ string_bytes text.old ++ line_of_pair verb.now host peer (refusal_text refusal)) }
{
    let host = HostName::new(host);
    let peer = HostName::new(peer);
    writeln!(text, "{verb} {host} {peer} refused {refusal}")?;
    Ok(())
}
