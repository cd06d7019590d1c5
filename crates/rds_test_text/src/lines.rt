use rds_model::Outcome;
use rds_text::*;
use rds_wire::{Frame, Header, Payload};
use std::alloc::Global;
use std::test::Fail;

fn header(sequence: u64, ack: u64, len: u32, ports: (u16, u16), flags: u8) -> Header {
    Header {
        sequence,
        ack,
        len,
        sport: ports.0,
        dport: ports.1,
        flags,
        credit: 0,
        padding: [0; 4],
        csum: 0,
        ext: [0; 16],
    }
}

// The datagram that is sent.
fn data(alloc: Global) -> Result<Frame, Fail> {
    let payload = Payload::copy_of(alloc, b"hello")?;
    Ok(Frame {
        header: header(1, 0, 5, (4000, 4001), 2),
        payload,
    })
}

// A map in which ports 8 and 15 are set.
fn map(alloc: Global) -> Result<Frame, Fail> {
    let mut map = [0u8; 8192];
    map[1] = 0x81;
    let payload = Payload::copy_of(alloc, &map)?;
    Ok(Frame {
        header: header(0, 1, 8192, (0, 0), 1),
        payload,
    })
}

fn add_sent(text: &mut String) -> Result<(), Fail> {
    bind_line(text, 0, 4000, 0)?;
    accept_line(text, 0, 1, 1, 0, 4000, 4001, b"hello")?;
    open_line(text, 0, 1, 1)?;
    Ok(())
}

fn add_read(text: &mut String, alloc: Global) -> Result<(), Fail> {
    let data = data(alloc)?;
    read_line(text, 1, 0, 1, &data, Outcome::Slot(0))?;
    Ok(())
}

fn add_pulled(text: &mut String, alloc: Global) -> Result<(), Fail> {
    let map = map(alloc)?;
    pull_line(text, 1, 0, 1, &map)?;
    Ok(())
}

fn add_received(text: &mut String) -> Result<(), Fail> {
    drained_line(text)?;
    recv_line(text, 1, 4001, 0, 4000, b"hello")?;
    recv_none_line(text, 1, 4001)?;
    Ok(())
}

fn add_ended(text: &mut String) -> Result<(), Fail> {
    cancel_line(text, 0, 1, 0, rds_model::Target::All, &[1, 2], &[])?;
    shut_line(text, 0, 1, 1)?;
    spent_line(text, 0, 1, 7)?;
    Ok(())
}

fn add_lines(text: &mut String, alloc: Global) -> Result<(), Fail> {
    add_sent(text)?;
    add_read(text, alloc)?;
    add_pulled(text, alloc)?;
    add_received(text)?;
    add_ended(text)
}

#[test]
fn the_lines_of_a_send(rt: HostRuntime) -> Result<(), Fail> {
    let mut text = String::new(rt.alloc());
    add_lines(&mut text, rt.alloc())?;
    let lines = "bind A 4000 slot 0
A:B accept n=1 slot=0 4000>4001 data=68656c6c6f
A:B open k=1
B:A read k=1 data n=1 ack=0 flags=02 4000>4001 len=5 slot 0
B:A pull k=1 map ack=1 set=8,15
drained
recv B 4001 A:4000 data=68656c6c6f
recv B 4001 none
A:B cancel slot=0 dport=all begun=1,2 unbegun=-
A:B shut k=1
spent A B 7
";
    assert_eq!(rt; text.as_str(), lines);
    Ok(())
}
