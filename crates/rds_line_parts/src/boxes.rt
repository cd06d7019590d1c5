//! The mailboxes that a line delivers to.
ghost use Rattle.std.specs.Prelude.{◌≡◌, ◌<◌, length, OnOk, OnErr};
ghost use Rattle.rds_model.specs.declared.order.Datagram.{Datagram};
ghost use Rattle.rds_mail.specs.Passes.{Putter};
ghost use Rattle.rds_line_parts.specs.Boxes.{IsBoxOf, IsPutInto};

use crate::slot_box::SlotBox;
use rds_mail::Note;
use rds_model::Datagram;
use rds_wire::Memory;
use std::marker::Model;
use std::sync::Wait;

/// The mailboxes of a host's slots, one a slot from slot 0 upward, with a line's right to put there. Contracts see the putters.
#[derive(Drop)]
pub struct Boxes {
    boxes: Vec<SlotBox>,
}

impl Model for Boxes {
    ghost use Rattle.std.specs.Prelude.{List};
    ghost use Rattle.rds_model.specs.declared.order.Datagram.{Datagram};
    ghost use Rattle.rds_mail.specs.Passes.{Putter};

    ghost Value = { List (Putter Datagram) };

    ghost view = { λ b. b.boxes.items };
}

impl Boxes {
    /// The mailboxes of a host's slots, in their order.
    pub fn new(boxes: Vec<SlotBox>) -> Boxes
        ensures { result ≡ boxes.items }
    {
        Boxes { boxes }
    }

    /// The mailboxes, in the same order.
    pub fn into_vec(self) -> Vec<SlotBox>
        ensures { result.items ≡ self }
    {
        let Boxes { boxes } = self;
        boxes
    }

    /// How many slots there are.
    pub fn len(&self) -> usize
        ensures { result ≡ length self.now }
    {
        self.boxes.len()
    }

    /// Puts a datagram into the mailbox of a slot.
    ///
    /// # Errors
    ///
    /// Where there is no memory for its place. Nothing was put, and the datagram is given up.
    pub fn put<W: Wait>(&mut self, rt: &W, slot: u16, datagram: Datagram) -> Result<(), Memory>
        requires { slot < length self.old }
        ensures put { OnOk result (IsPutInto slot datagram self.old self.new) }
        ensures same { OnErr result (self.new ≡ self.old) }
    {
        let held = &mut self.boxes[usize::from(slot)];
        held.put(rt, datagram)
    }

    /// Wakes the task that waits for a datagram of a slot.
    pub fn ring<W: Wait>(&self, rt: &W, slot: u16)
        requires { slot < length self.now }
    {
        self.boxes[usize::from(slot)].ring(rt);
    }

    /// A note of what was put into the mailbox of a slot.
    pub fn note(&mut self, slot: u16) -> Note<Datagram>
        requires { slot < length self.old }
        ensures same { self.new ≡ self.old }
        ensures note { IsBoxOf self.old slot result }
    {
        self.boxes[usize::from(slot)].note()
    }
}
