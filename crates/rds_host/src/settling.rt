//! What the slots and the lines of a host are told of each other while its lines do not turn: before they turn, and once its sockets have
//! ended.
ghost use Rattle.std.specs.Prelude.{◌≡◌, ◌<◌, ◌∷◌, [], All, length, map};
ghost use Rattle.rds_host.specs.Keeping.{LinesKeep, SlotsKeep};
ghost use Rattle.rds_host.specs.Settled.{AreLinesToldMore, AreSameSockets, AreSettled, AreSlotsToldMore, CanTell, IsSameSocket, knowing_ports, ports_of};
ghost use Rattle.rds_host.specs.Telling.{AreAllBoxesTold, AreAllOrdersTold, ArePortsTold, slots_of};
ghost use Rattle.rds_host.specs.Ties.{AreOfHost};

use rds_fmap::{Reader, Writer};
use rds_line::Line;
use rds_link::End;
use rds_socket::{Closed, Socket};

/// Tells each line all orders that these slots have put for it and each slot all datagrams that these lines have put into its
/// mailbox. Each line's seat at the port table is told of the port of each socket, in their order. Nothing else changes: a seat that
/// had looked up no port still has looked up none. `numbers` are those of the closed slots.
pub fn settle<E: End>(
    sockets: &mut [Socket<Reader>],
    closed: &mut [Closed<Reader>],
    numbers: &[u16],
    lines: &mut [Line<E, Writer>],
)
    requires numbers { numbers.now ≡ map (λ h. h.words.slot) closed.old }
    requires host { AreOfHost (slots_of sockets.old closed.old) lines.old }
    requires routes { All (λ h. length h.routes ≡ length lines.old) (slots_of sockets.old closed.old) }
    requires boxes { All (λ h. All (λ line. h.words.slot < length line.boxes) lines.old) (slots_of sockets.old closed.old) }
    ensures orders { AreAllOrdersTold (slots_of sockets.new closed.new) lines.new }
    ensures boxes { AreAllBoxesTold (slots_of sockets.new closed.new) lines.new }
    ensures ports { ArePortsTold (map (λ s. s.own) sockets.new) lines.new }
    ensures slots { AreSlotsToldMore (slots_of sockets.old closed.old) (slots_of sockets.new closed.new) }
    ensures slots_keep { SlotsKeep (slots_of sockets.old closed.old) (slots_of sockets.new closed.new) }
    ensures sockets { AreSameSockets sockets.old sockets.new }
    ensures lines { AreLinesToldMore (ports_of sockets.old) lines.old lines.new }
    ensures lines_keep { LinesKeep lines.old lines.new }
{
    settle_sockets(sockets, lines);
    settle_closed(closed, numbers, lines);
}

// Tells sockets and lines of each other.
fn settle_sockets<E: End>(sockets: &mut [Socket<Reader>], lines: &mut [Line<E, Writer>])
    requires { CanTell (map (λ s. s.own) sockets.old) lines.old }
    ensures told { AreSettled (ports_of sockets.old) (map (λ s. s.own) sockets.old) (map (λ s. s.own) sockets.new) lines.old lines.new }
    ensures ports { ArePortsTold (map (λ s. s.own) sockets.new) lines.new }
    ensures same { AreSameSockets sockets.old sockets.new }
{
    for i in 0..sockets.len() {
        settle_socket(&mut sockets[i], lines);
    }
}

// Tells slots that have ended and lines of each other.
fn settle_closed<E: End>(
    closed: &mut [Closed<Reader>],
    numbers: &[u16],
    lines: &mut [Line<E, Writer>],
)
    requires numbers { numbers.now ≡ map (λ h. h.words.slot) closed.old }
    requires tell { CanTell closed.old lines.old }
    ensures { AreSettled [] closed.old closed.new lines.old lines.new }
{
    for i in 0..closed.len() {
        settle_slot(numbers[i], &mut closed[i], lines);
    }
}

// Tells a socket and each line of each other: the line of the orders and the port, the socket of the datagrams in its mailbox.
fn settle_socket<E: End>(socket: &mut Socket<Reader>, lines: &mut [Line<E, Writer>])
    requires { CanTell (socket.old.own ∷ []) lines.old }
    ensures told { AreSettled (ports_of (socket.old ∷ [])) (socket.old.own ∷ []) (socket.new.own ∷ []) lines.old lines.new }
    ensures ports { ArePortsTold (socket.new.own ∷ []) lines.new }
    ensures same { IsSameSocket socket.old socket.new }
{
    let slot = socket.slot();
    for i in 0..lines.len() {
        let line = &mut lines[i];
        line.hear_orders(socket.order_note(i));
        tell_port(socket, line);
        socket.hear(line.inbox_note(slot));
    }
}

// Tells a line's seat at the port table the port of a socket.
#[tactic(auto, using(crate::proofs::Knowing::knowing_note))]
fn tell_port<E: End>(socket: &mut Socket<Reader>, line: &mut Line<E, Writer>)
    requires { socket.old.own.ports.table ≡ line.old.ports.table }
    ensures same { socket.new ≡ socket.old }
    ensures told { line.new ≡ record line.old { ports = knowing_ports line.old.ports (ports_of (socket.old ∷ [])) } }
{
    line.hear_port(socket.port_note());
}

// Tells a slot that has ended and each line of each other: the line of the orders, the slot of the datagrams in its mailbox.
fn settle_slot<E: End>(slot: u16, closed: &mut Closed<Reader>, lines: &mut [Line<E, Writer>])
    requires number { slot ≡ closed.old.words.slot }
    requires tell { CanTell (closed.old ∷ []) lines.old }
    ensures { AreSettled [] (closed.old ∷ []) (closed.new ∷ []) lines.old lines.new }
{
    for i in 0..lines.len() {
        let line = &mut lines[i];
        line.hear_orders(closed.order_note(i));
        closed.hear(line.inbox_note(slot));
    }
}
