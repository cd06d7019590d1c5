//! The report on two hosts, of which one has sent datagrams to the other.
use super::tried::Tried;
use rds_model::{Datagram, Entry, Journal};
use rds_report::{report as write_report, report_parts};
use rds_text::{HostEnd, Kept, address};
use rds_wire::Payload;
use std::alloc::Global;
use std::thread::Threads;

/// How many datagrams a short report is on, which is made in one text.
const FEW: u32 = 40;

/// How many a long one is on, which threads make.
const MANY: u32 = 10_000;

// The hosts after so many datagrams.
fn hosts(alloc: Global, count: u32) -> Option<Vec<HostEnd>> {
    let payload = Payload::copy_of(alloc, b"hello").ok()?;
    let sender = sender(alloc, count, &payload)?;
    let receiver = receiver(alloc, count, &payload)?;
    vec![in alloc; sender, receiver].ok()
}

fn sender(alloc: Global, count: u32, payload: &Payload) -> Option<HostEnd> {
    let mut journal = Journal::new(alloc, MANY).ok()?;
    for _ in 0..count {
        accept(&mut journal, payload.share().ok()?)?;
    }
    Some(HostEnd {
        addr: address(0),
        journals: vec![in alloc; (address(1), journal)].ok()?,
        kept: Vec::new(alloc),
    })
}

fn accept(journal: &mut Journal, payload: Payload) -> Option<()> {
    journal.reserve(1).ok()?;
    journal.push(Entry::Accept {
        slot: 0,
        sport: 4000,
        dport: 4001,
        payload,
    });
    Some(())
}

fn receiver(alloc: Global, count: u32, payload: &Payload) -> Option<HostEnd> {
    let mut got = Vec::new(alloc);
    for _ in 0..count {
        got.push(datagram(payload)?).ok()?;
    }
    let kept = Kept {
        slot: 0,
        port: 4001,
        got,
        unread: Vec::new(alloc),
    };
    Some(HostEnd {
        addr: address(1),
        journals: Vec::new(alloc),
        kept: vec![in alloc; kept].ok()?,
    })
}

fn datagram(payload: &Payload) -> Option<Datagram> {
    Some(Datagram {
        from: address(0),
        sport: 4000,
        dport: 4001,
        payload: payload.share().ok()?,
    })
}

pub fn report(alloc: Global) -> Option<Tried> {
    let hosts = hosts(alloc, FEW)?;
    let mut text = String::new(alloc);
    let again = write_report(alloc, &mut text, &hosts).is_err();
    if again {
        text = String::new(alloc);
        write_report(alloc, &mut text, &hosts).ok()?;
    }
    Some(Tried::of(again, text.len()))
}

pub fn long_report<R: Threads + Sync>(rt: &R, alloc: Global) -> Option<Tried> {
    let hosts = hosts(alloc, MANY)?;
    let mut again = false;
    let texts = match report_parts(rt, alloc, &hosts) {
        Ok(texts) => texts,
        Err(_) => {
            again = true;
            report_parts(rt, alloc, &hosts).ok()?
        }
    };
    let mut length = 0;
    for text in &texts {
        length = text.len().wrapping_add(length);
    }
    Some(Tried::of(again, length))
}
