//! Datagrams that are put into a slot's mailbox.
ghost use Rattle.std.specs.Prelude.{◌≡◌, ◌<◌, ◌+◌, length, OnOk};
ghost use Rattle.std.specs.Arc.{arc_value};

use rds_line_parts::{Boxes, SlotBox};
use rds_mail::{GetPass, Mail};
use rds_model::Datagram;
use rds_wire::{Memory, Payload};
use std::alloc::Global;
use std::sync::{Arc, Wait};
use std::test::Fail;

// The mailbox of a slot, as its socket has it.
struct Socket {
    mail: Arc<Mail<Datagram>>,
    get: GetPass<Datagram>,
    ghost tied: { get.mail ≡ (arc_value mail).line },
}

// By hand, so that one call drops it wherever it is let go.
impl Drop for Socket {
    fn drop(self) {
        let Self {
            mail: _mail,
            get: _get,
        } = self;
    }
}

impl Socket {
    // A socket, whose box goes behind the others.
    fn new(boxes: &mut Vec<SlotBox>, alloc: Global) -> Result<Socket, Memory>
        ensures { OnOk result (length boxes.new.items ≡ length boxes.old.items + 1) }
    {
        let (mail, put, get) = Mail::new(alloc)?;
        let mail = Arc::new(alloc, mail)?;
        let socket = Socket { mail, get };
        boxes.push(SlotBox::new(Arc::try_clone(&socket.mail)?, put))?;
        Ok(socket)
    }

    // Whether the next datagram comes to port 4001.
    fn gets(&mut self, rt: &impl Wait) -> bool {
        match self.mail.get(rt, &mut self.get) {
            Some(datagram) => datagram.dport == 4001,
            None => false,
        }
    }
}

// Puts `hello` to port 4001 into the box of slot 1.
fn put(boxes: Vec<SlotBox>, rt: &impl Wait, alloc: Global) -> Result<(), Memory>
    requires { 1 < length boxes.items }
{
    let payload = Payload::copy_of(alloc, b"hello")?;
    let datagram = Datagram {
        from: 167772161,
        sport: 4000,
        dport: 4001,
        payload,
    };
    Boxes::new(boxes).put(rt, 1, datagram)
}

// Whether the first socket gets the datagram that was put, and whether the second does, asked twice.
fn got(rt: &impl Wait, alloc: Global) -> Result<[bool; 3], Memory> {
    let mut boxes = Vec::new(alloc);
    let mut first = Socket::new(&mut boxes, alloc)?;
    let mut second = Socket::new(&mut boxes, alloc)?;
    put(boxes, rt, alloc)?;
    Ok([first.gets(rt), second.gets(rt), second.gets(rt)])
}

#[test]
fn a_datagram_goes_into_the_box_of_its_slot_once(rt: HostRuntime) -> Result<(), Fail> {
    assert!(rt; got(&rt, rt.alloc())? == [false, true, false]);
    Ok(())
}
