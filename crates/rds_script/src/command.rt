//! A command from the words of its line.

ghost use Rattle.std.specs.Prelude.{◌≡◌, [], ◌∷◌, false};
ghost use Rattle.rds_script.specs.Text.{words};
ghost use Rattle.rds_script.specs.Line.{first_of, the_number};
ghost use Rattle.rds_script.specs.Reading.{Gives, GivesOrMemory, values_at, places_of, command_at, exact, is_hosts};
ghost use Rattle.rds_script.specs.declared.name.Name.TheVariants as names;

use crate::fault::Fault;
use crate::line::has_words;
use crate::name::Name;
use crate::place::{end_at, host_at, number_at, peer_at, port_at};
use crate::rooms::Rooms;
use crate::{Cause, Command};

/// The most bytes that a socket's buffer may have.
const MAX_BUFFER: u32 = 16_777_216;

/// The command of this name, from the other words of its line. Only where they give none are they counted, since a wrong
/// number of words comes before what is wrong with one of them.
pub(crate) fn command_of(
    rooms: &mut Rooms,
    hosts: u8,
    name: Name,
    rest: &[u8],
) -> Result<Command, Fault>
    requires { is_hosts name ≡ false }
    ensures { GivesOrMemory (λ c. c) result
        (exact name (words rest.now) (command_at hosts name (words rest.now))) }
{
    let command = command_at(rooms, hosts, name, rest);
    if command.is_err() && !has_words(rest, name.places()) {
        return Err(Fault::Refused(Cause::Words));
    }
    command
}

/// The command of this name, from the other words of its line. A payload gets its bytes from the room of the
/// host that sends it.
#[tactic(auto, unfolding(crate::specs::Reading::command_at))]
fn command_at(rooms: &mut Rooms, hosts: u8, name: Name, rest: &[u8]) -> Result<Command, Fault>
    requires { is_hosts name ≡ false }
    ensures { GivesOrMemory (λ c. c) result (command_at hosts name (words rest.now)) }
{
    match name {
        Name::Hosts => unreachable!(),
        Name::Bind => {
            let (host, port, sndbuf, rcvbuf) = binding(hosts, rest)?;
            Ok(Command::Bind {
                host,
                port,
                sndbuf,
                rcvbuf,
            })
        }
        Name::BindAny => {
            let (host, port, sndbuf, rcvbuf) = binding(hosts, rest)?;
            Ok(Command::BindAny {
                host,
                port,
                sndbuf,
                rcvbuf,
            })
        }
        Name::Send => send(rooms, hosts, rest),
        Name::Recv => {
            let (host, port) = socket(hosts, rest)?;
            Ok(Command::Recv { host, port })
        }
        Name::Cancel => {
            let (host, port, to, dport) = two_sockets(hosts, rest)?;
            Ok(Command::Cancel {
                host,
                port,
                to,
                dport,
            })
        }
        Name::Close => {
            let (host, port) = socket(hosts, rest)?;
            Ok(Command::Close { host, port })
        }
        Name::Open => {
            let (host, to) = pair(hosts, rest)?;
            Ok(Command::Open { host, to })
        }
        Name::Move => {
            let (host, to, bytes) = pair_and_bytes(hosts, rest)?;
            Ok(Command::Move { host, to, bytes })
        }
        Name::Cut => {
            let (host, to) = pair(hosts, rest)?;
            Ok(Command::Cut { host, to })
        }
        Name::Drain => {
            end_at(rest)?;
            Ok(Command::Drain)
        }
    }
}

/// A host and a port.
fn socket(hosts: u8, rest: &[u8]) -> Result<(u8, u16), Cause>
    ensures { Gives (λ r. the_number r.0 ∷ the_number r.1 ∷ []) result
        (values_at hosts (first_of (words rest.now)) (places_of names.Recv) (words rest.now)) }
{
    let (host, rest) = host_at(hosts, rest)?;
    let (port, rest) = port_at(rest)?;
    end_at(rest)?;
    Ok((host, port))
}

/// A host and another host.
fn pair(hosts: u8, rest: &[u8]) -> Result<(u8, u8), Cause>
    ensures { Gives (λ r. the_number r.0 ∷ the_number r.1 ∷ []) result
        (values_at hosts (first_of (words rest.now)) (places_of names.Open) (words rest.now)) }
{
    let (host, rest) = host_at(hosts, rest)?;
    let (peer, rest) = peer_at(hosts, host, rest)?;
    end_at(rest)?;
    Ok((host, peer))
}

/// A host, a port and the limits of the two buffers.
fn binding(hosts: u8, rest: &[u8]) -> Result<(u8, u16, u32, u32), Cause>
    ensures { Gives (λ r. the_number r.0 ∷ the_number r.1 ∷ the_number r.2 ∷ the_number r.3 ∷ [])
        result (values_at hosts (first_of (words rest.now)) (places_of names.Bind) (words rest.now)) }
{
    let (host, rest) = host_at(hosts, rest)?;
    let (port, rest) = port_at(rest)?;
    let (sndbuf, rest) = number_at(1, MAX_BUFFER, rest)?;
    let (rcvbuf, rest) = number_at(2, MAX_BUFFER, rest)?;
    end_at(rest)?;
    Ok((host, port, sndbuf, rcvbuf))
}

/// A host and a port, and another host and port.
fn two_sockets(hosts: u8, rest: &[u8]) -> Result<(u8, u16, u8, u16), Cause>
    ensures { Gives (λ r. the_number r.0 ∷ the_number r.1 ∷ the_number r.2 ∷ the_number r.3 ∷ [])
        result (values_at hosts (first_of (words rest.now)) (places_of names.Cancel) (words rest.now)) }
{
    let (host, rest) = host_at(hosts, rest)?;
    let (port, rest) = port_at(rest)?;
    let (to, rest) = host_at(hosts, rest)?;
    let (dport, rest) = port_at(rest)?;
    end_at(rest)?;
    Ok((host, port, to, dport))
}

/// A host, another host and a number of bytes.
fn pair_and_bytes(hosts: u8, rest: &[u8]) -> Result<(u8, u8, u32), Cause>
    ensures { Gives (λ r. the_number r.0 ∷ the_number r.1 ∷ the_number r.2 ∷ []) result
        (values_at hosts (first_of (words rest.now)) (places_of names.Move) (words rest.now)) }
{
    let (host, rest) = host_at(hosts, rest)?;
    let (to, rest) = peer_at(hosts, host, rest)?;
    let (bytes, rest) = number_at(1, u32::MAX, rest)?;
    end_at(rest)?;
    Ok((host, to, bytes))
}

/// A host and a port, another host and port, and a payload.
#[tactic(auto, unfolding(crate::specs::Reading::command_at))]
fn send(rooms: &mut Rooms, hosts: u8, rest: &[u8]) -> Result<Command, Fault>
    ensures { GivesOrMemory (λ c. c) result (command_at hosts names.Send (words rest.now)) }
{
    let (host, rest) = host_at(hosts, rest)?;
    let (port, rest) = port_at(rest)?;
    let (to, rest) = host_at(hosts, rest)?;
    let (dport, rest) = port_at(rest)?;
    let (payload, rest) = rooms.payload_at(host, rest)?;
    end_at(rest)?;
    Ok(Command::Send {
        host,
        port,
        to,
        dport,
        payload,
    })
}
