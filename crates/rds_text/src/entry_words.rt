ghost use Rattle.std.specs.Prelude.{◌≡◌, Some};
ghost use Rattle.std.specs.Fmt.{WritesOnOk};
ghost use Rattle.rds_text.specs.Lines.{journal_name, frame_text, map_text, ack_text, datagram_text, outcome_text, target_text};

use crate::{HexByte, HostName, PortSet};
use rds_model::{Outcome, Target};
use rds_wire::{Frame, Header, Kind, Payload, kind_of};
use std::fmt;
use std::fmt::{Formatter, Write};

/// The journal that a host keeps of its connection with a peer, as `A:B`.
#[derive(Clone, Copy)]
pub struct JournalName {
    pub host: HostName,
    pub peer: HostName,
}

impl fmt::Display for JournalName {
    ghost output = { λ j. Some (journal_name j.host.host j.peer.host) };

    fn fmt<W: Write>(&self, f: &mut Formatter<W>) -> fmt::Result {
        let host = self.host;
        let peer = self.peer;
        write!(f, "{host}:{peer}")
    }
}

/// What a frame is, in words.
#[derive(Clone, Copy)]
pub struct FrameText<'a>(pub &'a Frame);

impl fmt::Display for FrameText<'_> {
    ghost output = { λ s. Some (frame_text s.0.now) };

    fn fmt<W: Write>(&self, f: &mut Formatter<W>) -> fmt::Result {
        let frame = self.0;
        match kind_of(&frame.header) {
            Kind::Map => write_map(f, &frame.header, &frame.payload),
            Kind::OddMap => write_map(f, &frame.header, &frame.payload),
            Kind::Ack => write_ack(f, &frame.header),
            Kind::Data => write_datagram(f, &frame.header),
        }
    }
}

fn write_map<W: Write>(f: &mut Formatter<W>, header: &Header, payload: &Payload) -> fmt::Result
    ensures { WritesOnOk W.write_str_gives f.old result (map_text header.now payload.now) f.new }
{
    let ack = header.ack;
    let _length = payload.len();
    let ports = PortSet::new(payload.as_slice());
    write!(f, "map ack={ack} set={ports}")
}

fn write_ack<W: Write>(f: &mut Formatter<W>, header: &Header) -> fmt::Result
    ensures { WritesOnOk W.write_str_gives f.old result (ack_text header.now) f.new }
{
    let ack = header.ack;
    let flags = HexByte(header.flags);
    write!(f, "ack ack={ack} flags={flags}")
}

fn write_datagram<W: Write>(f: &mut Formatter<W>, header: &Header) -> fmt::Result
    ensures { WritesOnOk W.write_str_gives f.old result (datagram_text header.now) f.new }
{
    let number = header.sequence;
    let ack = header.ack;
    let flags = HexByte(header.flags);
    let sport = header.sport;
    let dport = header.dport;
    let len = header.len;
    write!(
        f,
        "data n={number} ack={ack} flags={flags} {sport}>{dport} len={len}"
    )
}

/// What became of a frame that was read, with a space before it where it has a word.
#[derive(Clone, Copy)]
pub struct OutcomeText(pub Outcome);

impl fmt::Display for OutcomeText {
    ghost output = { λ s. Some (outcome_text s.0) };

    fn fmt<W: Write>(&self, f: &mut Formatter<W>) -> fmt::Result {
        match self.0 {
            Outcome::Old => write!(f, " old"),
            Outcome::NoSocket => write!(f, " no-socket"),
            Outcome::Slot(slot) => write!(f, " slot {slot}"),
            Outcome::Ping => write!(f, " ping"),
            Outcome::Void => write!(f, " void"),
            Outcome::AckOnly => Ok(()),
            Outcome::Map => Ok(()),
            Outcome::OddMap => Ok(()),
        }
    }
}

/// Which of a socket's datagrams a cancellation covers, in words.
#[derive(Clone, Copy)]
pub struct TargetText(pub Target);

impl fmt::Display for TargetText {
    ghost output = { λ s. Some (target_text s.0) };

    fn fmt<W: Write>(&self, f: &mut Formatter<W>) -> fmt::Result {
        match self.0 {
            Target::Port(port) => write!(f, "{port}"),
            Target::All => write!(f, "all"),
        }
    }
}
