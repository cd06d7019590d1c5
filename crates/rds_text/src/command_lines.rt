ghost use Rattle.std.specs.Prelude.{◌≡◌, ◌++◌, ◌∷◌, [], ◌<◌, OnOk, Some, codes, string_bytes};
ghost use Rattle.std.specs.Fmt.{decimal};
ghost use Rattle.rds_text.specs.Lines.{bind_line as line_of_bind, close_line as line_of_close, cut_line as line_of_cut, drained_line as line_of_drained, text_line, mark_line as line_of_mark, mark_word, move_line as line_of_move, recv_line as line_of_recv, recv_none_line as line_of_recv_none, spent_line as line_of_spent};

use crate::{Hex, HostName};
use rds_wire::Memory;
use std::fmt;

/// A congestion bit's change, in a word.
#[derive(Clone, Copy)]
struct MarkWord(bool);

impl fmt::Display for MarkWord {
    ghost output = { λ m. Some (mark_word m.0) };

    fn fmt<W: fmt::Write>(&self, f: &mut fmt::Formatter<W>) -> fmt::Result {
        match self.0 {
            true => write!(f, "set"),
            false => write!(f, "clear"),
        }
    }
}

/// The line of a bind that succeeded.
///
/// # Errors
///
/// Where there is no memory for the line.
pub fn bind_line(text: &mut String, host: u8, port: u16, slot: u16) -> Result<(), Memory>
    requires { host < 26 }
    ensures { OnOk result (string_bytes text.new ≡ string_bytes text.old ++ line_of_bind host port slot) }
{
    let host = HostName::new(host);
    writeln!(text, "bind {host} {port} slot {slot}")?;
    Ok(())
}

/// The line of a receive that handed a datagram out: from port `sport` of host `from`.
///
/// # Errors
///
/// Where there is no memory for the line.
pub fn recv_line(
    text: &mut String,
    host: u8,
    port: u16,
    from: u8,
    sport: u16,
    payload: &[u8],
) -> Result<(), Memory>
    requires host { host < 26 }
    requires from { from < 26 }
    ensures { OnOk result (string_bytes text.new ≡ string_bytes text.old ++ line_of_recv host port from sport payload.now) }
{
    let host = HostName::new(host);
    let from = HostName::new(from);
    let bytes = Hex(payload);
    writeln!(text, "recv {host} {port} {from}:{sport} data={bytes}")?;
    Ok(())
}

/// The line of a receive that found nothing.
///
/// # Errors
///
/// Where there is no memory for the line.
pub fn recv_none_line(text: &mut String, host: u8, port: u16) -> Result<(), Memory>
    requires { host < 26 }
    ensures { OnOk result (string_bytes text.new ≡ string_bytes text.old ++ line_of_recv_none host port) }
{
    let host = HostName::new(host);
    writeln!(text, "recv {host} {port} none")?;
    Ok(())
}

/// The line that ends a drain.
///
/// # Errors
///
/// Where there is no memory for the line.
pub fn drained_line(text: &mut String) -> Result<(), Memory>
    ensures { OnOk result (string_bytes text.new ≡ string_bytes text.old ++ line_of_drained) }
{
    writeln!(text, "drained")?;
    Ok(())
}

/// The line of a journal that has no room: it has so many entries.
///
/// # Errors
///
/// Where there is no memory for the line.
pub fn spent_line(text: &mut String, host: u8, peer: u8, entries: u32) -> Result<(), Memory>
    requires host { host < 26 }
    requires peer { peer < 26 }
    ensures { OnOk result (string_bytes text.new ≡ string_bytes text.old ++ line_of_spent host peer entries) }
{
    let host = HostName::new(host);
    let peer = HostName::new(peer);
    writeln!(text, "spent {host} {peer} {entries}")?;
    Ok(())
}

/// The line of a port's congestion bit that changed: `queued` bytes wait at its socket, whose receive buffer has `limit`.
///
/// # Errors
///
/// Where there is no memory for the line.
pub fn mark_line(
    text: &mut String,
    host: u8,
    port: u16,
    set: bool,
    queued: u64,
    limit: u32,
) -> Result<(), Memory>
    requires { host < 26 }
    ensures { OnOk result (string_bytes text.new ≡ string_bytes text.old ++ line_of_mark host port set queued limit) }
{
    let host = HostName::new(host);
    let word = MarkWord(set);
    writeln!(
        text,
        "mark {host} {port} {word} queued={queued} limit={limit}"
    )?;
    Ok(())
}

/// The line of a socket that was closed, with the number of datagrams that it left unread.
///
/// # Errors
///
/// Where there is no memory for the line.
pub fn close_line(
    text: &mut String,
    host: u8,
    port: u16,
    slot: usize,
    unread: usize,
) -> Result<(), Memory>
    requires { host < 26 }
    ensures { OnOk result (string_bytes text.new ≡ string_bytes text.old ++ line_of_close host port slot unread) }
{
    let host = HostName::new(host);
    writeln!(text, "close {host} {port} slot {slot} unread {unread}")?;
    Ok(())
}

/// The line of bytes that were moved.
///
/// # Errors
///
/// Where there is no memory for the line.
pub fn move_line(text: &mut String, host: u8, peer: u8, moved: u64) -> Result<(), Memory>
    requires host { host < 26 }
    requires peer { peer < 26 }
    ensures { OnOk result (string_bytes text.new ≡ string_bytes text.old ++ line_of_move host peer moved) }
{
    let host = HostName::new(host);
    let peer = HostName::new(peer);
    writeln!(text, "move {host} {peer} moved {moved}")?;
    Ok(())
}

/// The line of a stream that is cut: so many bytes were in flight to the peer, and back.
///
/// # Errors
///
/// Where there is no memory for the line.
pub fn cut_line(
    text: &mut String,
    host: u8,
    peer: u8,
    forth: usize,
    back: usize,
) -> Result<(), Memory>
    requires host { host < 26 }
    requires peer { peer < 26 }
    ensures { OnOk result (string_bytes text.new ≡ string_bytes text.old ++ line_of_cut host peer forth back) }
{
    let host = HostName::new(host);
    let peer = HostName::new(peer);
    write!(text, "cut {host} {peer}")?;
    loss(text, forth, back)
}

// The rest of the line of a cut.
fn loss(text: &mut String, forth: usize, back: usize) -> Result<(), Memory>
    ensures { OnOk result (string_bytes text.new ≡
        string_bytes text.old ++ text_line (codes " lost " ∷ decimal forth ∷ codes " " ∷ decimal back ∷ [])) }
{
    writeln!(text, " lost {forth} {back}")?;
    Ok(())
}
