//! Two hosts that sent each other datagrams.

use rds_model::{Datagram, Entry, Journal, MAX_ENTRIES, Outcome};
use rds_text::{HostEnd, Kept, address};
use rds_wire::{ACK_REQUIRED, Frame, Header, Memory, Payloads};
use std::alloc::Global;

/// The bytes of each datagram.
const BYTES: [u8; 60] = [7; 60];

/// What two hosts have once each has sent the other half of so many datagrams, which all were received.
pub fn hosts(alloc: Global, count: u32) -> Result<Vec<HostEnd>, Memory> {
    let a = host(alloc, 0, 1, count / 2)?;
    let b = host(alloc, 1, 0, count / 2)?;
    Ok(vec![in alloc; a, b]?)
}

// What a host has that sent so many datagrams and received as many.
fn host(alloc: Global, me: u8, peer: u8, count: u32) -> Result<HostEnd, Memory> {
    let mut room = Payloads::new(alloc);
    let mut journal = Journal::new(alloc, MAX_ENTRIES)?;
    let mut got = Vec::new(alloc);
    for n in 0..count {
        send(&mut journal, &mut room)?;
        got.push(receive(&mut journal, &mut room, address(peer), n)?)?;
    }
    let kept = Kept {
        slot: 0,
        port: 4000,
        got,
        unread: Vec::new(alloc),
    };
    Ok(HostEnd {
        addr: address(me),
        journals: vec![in alloc; (address(peer), journal)]?,
        kept: vec![in alloc; kept]?,
    })
}

// A datagram is accepted and pulled.
fn send(journal: &mut Journal, room: &mut Payloads) -> Result<(), Memory> {
    let payload = room.copy_of(&BYTES)?;
    let frame = Frame {
        header: header(1),
        payload: payload.share()?,
    };
    let Ok(()) = journal.reserve(2) else {
        return Err(Memory);
    };
    journal.push(Entry::Accept {
        slot: 0,
        sport: 4000,
        dport: 4000,
        payload,
    });
    journal.push(Entry::Pull { stream: 1, frame });
    Ok(())
}

// A datagram is read, and handed out.
fn receive(
    journal: &mut Journal,
    room: &mut Payloads,
    from: u32,
    n: u32,
) -> Result<Datagram, Memory> {
    let payload = room.copy_of(&BYTES)?;
    let frame = Frame {
        header: header(u64::from(n) + 1),
        payload: payload.share()?,
    };
    let Ok(()) = journal.reserve(1) else {
        return Err(Memory);
    };
    journal.push(Entry::Read {
        stream: 1,
        frame,
        outcome: Outcome::Slot(0),
    });
    Ok(Datagram {
        from,
        sport: 4000,
        dport: 4000,
        payload,
    })
}

// The header of a datagram with this number.
fn header(sequence: u64) -> Header {
    Header {
        sequence,
        ack: 0,
        len: BYTES.len() as u32,
        sport: 4000,
        dport: 4000,
        flags: ACK_REQUIRED,
        credit: 0,
        padding: [0; 4],
        csum: 0,
        ext: [0; 16],
    }
}
