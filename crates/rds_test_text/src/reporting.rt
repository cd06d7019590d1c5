use rds_model::{Datagram, Entry, Journal, Outcome, Target};
use rds_report::*;
use rds_text::*;
use rds_wire::{Frame, Header, Payload};
use std::alloc::Global;
use std::process::Abort;
use std::test::Fail;
use std::thread::Threads;

fn header(sequence: u64, ack: u64, len: u32, ports: (u16, u16), flags: u8) -> Header {
    Header {
        sequence,
        ack,
        len,
        sport: ports.0,
        dport: ports.1,
        flags,
        credit: 0,
        padding: [0; 4],
        csum: 0,
        ext: [0; 16],
    }
}

fn accept(journal: &mut Journal, alloc: Global, dport: u16) -> Result<(), Fail> {
    let payload = Payload::copy_of(alloc, b"hello")?;
    journal.reserve(1)?;
    journal.push(Entry::Accept {
        slot: 0,
        sport: 4000,
        dport,
        payload,
    });
    Ok(())
}

fn read(
    journal: &mut Journal,
    alloc: Global,
    n: u64,
    dport: u16,
    outcome: Outcome,
) -> Result<(), Fail> {
    let frame = Frame {
        header: header(n, 0, 5, (4000, dport), 2),
        payload: Payload::copy_of(alloc, b"hello")?,
    };
    journal.reserve(1)?;
    journal.push(Entry::Read {
        stream: 1,
        frame,
        outcome,
    });
    Ok(())
}

fn add_datagrams(to: &mut Vec<Datagram>, alloc: Global, count: u32) -> Result<(), Fail> {
    for _ in 0..count {
        to.push(Datagram {
            from: address(0),
            sport: 4000,
            dport: 4001,
            payload: Payload::copy_of(alloc, b"hello")?,
        })?;
    }
    Ok(())
}

// So many datagrams, all alike.
fn datagrams(alloc: Global, count: u32) -> Result<Vec<Datagram>, Fail> {
    let mut datagrams = Vec::new(alloc);
    add_datagrams(&mut datagrams, alloc, count)?;
    Ok(datagrams)
}

// One socket, with so many datagrams that were got and that were not read.
fn socket(alloc: Global, got: u32, unread: u32) -> Result<Vec<Kept>, Fail> {
    let got = datagrams(alloc, got)?;
    let kept = Kept {
        slot: 0,
        port: 4001,
        got,
        unread: datagrams(alloc, unread)?,
    };
    Ok(vec![in alloc; kept]?)
}

// Two datagrams to port 4001, and one to port 4002.
fn add_three(journal: &mut Journal, alloc: Global) -> Result<(), Fail> {
    accept(journal, alloc, 4001)?;
    accept(journal, alloc, 4001)?;
    accept(journal, alloc, 4002)
}

fn sender_of_three(alloc: Global) -> Result<HostEnd, Fail> {
    let mut journal = Journal::new(alloc, 100)?;
    add_three(&mut journal, alloc)?;
    Ok(HostEnd {
        addr: address(0),
        journals: vec![in alloc; (address(1), journal)]?,
        kept: Vec::new(alloc),
    })
}

// The host that received one of them, waits for one, and found no socket for the third.
fn receiver_of_one(alloc: Global) -> Result<HostEnd, Fail> {
    let mut journal = Journal::new(alloc, 100)?;
    read(&mut journal, alloc, 3, 4002, Outcome::NoSocket)?;
    Ok(HostEnd {
        addr: address(1),
        journals: vec![in alloc; (address(0), journal)]?,
        kept: socket(alloc, 1, 0)?,
    })
}

fn add_report(text: &mut String, alloc: Global) -> Result<(), Fail> {
    let hosts = vec![in alloc; sender_of_three(alloc)?, receiver_of_one(alloc)?]?;
    report(alloc, text, &hosts)?;
    Ok(())
}

#[test]
fn a_report(rt: HostRuntime) -> Result<(), Fail> {
    let mut text = String::new(rt.alloc());
    add_report(&mut text, rt.alloc())?;
    let lines =
        "A:4000>B:4001 accepted 2 received 1 unread 0 dropped 0 port0 0 cancelled 0 pending 1
 data=68656c6c6f
A:4000>B:4002 accepted 1 received 0 unread 0 dropped 1 port0 0 cancelled 0 pending 0
end ok
";
    assert_eq!(rt; text.as_str(), lines);
    Ok(())
}

// Ten datagrams to port 4001, taken back, and one more. Five pings came.
fn add_sent(journal: &mut Journal, alloc: Global) -> Result<(), Fail> {
    for _ in 0..10 {
        accept(journal, alloc, 4001)?;
    }
    journal.reserve(1)?;
    journal.push(Entry::Cancel {
        slot: 0,
        target: Target::All,
    });
    accept(journal, alloc, 4001)?;
    for n in 1..6 {
        read(journal, alloc, n, 0, Outcome::Ping)?;
    }
    Ok(())
}

// Six pings, of which one waits. Of what came, five datagrams went to a socket, and one found none. One more is of a pair
// of which nothing was accepted.
fn add_came(journal: &mut Journal, alloc: Global) -> Result<(), Fail> {
    for _ in 0..6 {
        accept(journal, alloc, 0)?;
    }
    for n in 1..6 {
        read(journal, alloc, n, 4001, Outcome::Slot(0))?;
    }
    read(journal, alloc, 6, 4001, Outcome::NoSocket)?;
    read(journal, alloc, 90, 4009, Outcome::NoSocket)
}

fn sender(alloc: Global) -> Result<HostEnd, Fail> {
    let mut journal = Journal::new(alloc, 100)?;
    add_sent(&mut journal, alloc)?;
    Ok(HostEnd {
        addr: address(0),
        journals: vec![in alloc; (address(1), journal)]?,
        kept: Vec::new(alloc),
    })
}

fn receiver(alloc: Global) -> Result<HostEnd, Fail> {
    let mut journal = Journal::new(alloc, 100)?;
    add_came(&mut journal, alloc)?;
    Ok(HostEnd {
        addr: address(1),
        journals: vec![in alloc; (address(0), journal)]?,
        kept: socket(alloc, 3, 2)?,
    })
}

fn sender_and_receiver(alloc: Global) -> Result<Vec<HostEnd>, Fail> {
    Ok(vec![in alloc; sender(alloc)?, receiver(alloc)?]?)
}

fn add_summary(rt: &(impl Threads + Sync + AllocGlobal), text: &mut String) -> Result<(), Fail> {
    let hosts = sender_and_receiver(rt.alloc())?;
    summary(rt, rt.alloc(), text, &hosts, 7, 1500)?;
    Ok(())
}

#[test]
fn a_summary(rt: HostRuntime) -> Result<(), Fail> {
    let mut text = String::new(rt.alloc());
    add_summary(&rt, &mut text)?;
    let lines =
        "seed 7 sends 1500 hosts 8 sockets 32 cuts 3 accepted 17 received 3 unread 2 dropped 1 port0 5 cancelled 4 bytes 15
end ok
";
    assert_eq!(rt; text.as_str(), lines);
    Ok(())
}

// Makes the report in one text and in several, which it puts one behind another, and answers how many those are.
fn report_twice(
    rt: &(impl Threads + Sync + AllocGlobal),
    hosts: &[HostEnd],
    text: &mut String,
    joined: &mut String,
) -> Result<usize, Fail> {
    report(rt.alloc(), text, hosts)?;
    let parts = report_parts(rt, rt.alloc(), hosts)?;
    for part in &parts {
        joined.push_str(part.as_str())?;
    }
    Ok(parts.len())
}

// The report in one text says what it says in several. Answers how many those are.
fn parts_of_report(
    rt: &(impl Threads + Sync + AllocGlobal + Abort),
    hosts: &[HostEnd],
) -> Result<usize, Fail> {
    let mut text = String::new(rt.alloc());
    let mut joined = String::new(rt.alloc());
    let count = report_twice(rt, hosts, &mut text, &mut joined)?;
    assert_eq!(rt; joined.as_str(), text.as_str());
    Ok(count)
}

#[test]
fn a_short_report_is_one_text(rt: HostRuntime) -> Result<(), Fail> {
    let hosts = sender_and_receiver(rt.alloc())?;
    let count = parts_of_report(&rt, &hosts)?;
    assert_eq!(rt; count, 1);
    Ok(())
}

// So many datagrams of one port pair are printed to more than two texts.
const MANY: u32 = 10_000;

// A host that sent many datagrams to port 4001.
fn busy_sender(alloc: Global) -> Result<HostEnd, Fail> {
    let mut journal = Journal::new(alloc, MANY)?;
    for _ in 0..MANY {
        accept(&mut journal, alloc, 4001)?;
    }
    Ok(HostEnd {
        addr: address(0),
        journals: vec![in alloc; (address(1), journal)]?,
        kept: Vec::new(alloc),
    })
}

// Datagrams of which no two are alike.
fn add_numbered(to: &mut Vec<Datagram>, alloc: Global) -> Result<(), Fail> {
    for n in 0..MANY {
        to.push(Datagram {
            from: address(0),
            sport: 4000,
            dport: 4001,
            payload: Payload::copy_of(alloc, &n.to_be_bytes())?,
        })?;
    }
    Ok(())
}

// The host that received them.
fn busy_receiver(alloc: Global) -> Result<HostEnd, Fail> {
    let mut got = Vec::new(alloc);
    add_numbered(&mut got, alloc)?;
    let kept = Kept {
        slot: 0,
        port: 4001,
        got,
        unread: Vec::new(alloc),
    };
    Ok(HostEnd {
        addr: address(1),
        journals: Vec::new(alloc),
        kept: vec![in alloc; kept]?,
    })
}

#[test]
fn the_parts_of_a_long_report(rt: HostRuntime) -> Result<(), Fail> {
    let hosts = vec![in rt.alloc(); busy_sender(rt.alloc())?, busy_receiver(rt.alloc())?]?;
    let count = parts_of_report(&rt, &hosts)?;
    assert!(rt; count > 11);
    Ok(())
}
