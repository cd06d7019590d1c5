//! Where the payloads of each host stand.

ghost use Rattle.rds_script.specs.Text.{words};
ghost use Rattle.rds_script.specs.Line.{the_bytes};
ghost use Rattle.rds_script.specs.Reading as reading;
ghost use Rattle.rds_script.specs.Reading.{GivesOrMemory};

use crate::fault::Fault;
use crate::payload::{Room, payload_at};
use rds_wire::Payload;
use std::alloc::Global;
use std::array;

/// The most hosts that a script has.
const HOSTS: usize = 8;

/// A room for the payloads of each host. No two hosts share a block of memory: the threads of different hosts would count the
/// owners of that block beside one another, and wait for each other's caches.
#[derive(Drop)]
pub(crate) struct Rooms {
    rooms: [Room; HOSTS],
}

impl Rooms {
    /// Room for no payload yet.
    pub(crate) fn new(alloc: Global) -> Rooms {
        Rooms {
            rooms: array::from_fn(|_: usize| Room::new(alloc)),
        }
    }

    /// The payload that the first word of a line's rest stands for, which the host sends, and the rest after it.
    pub(crate) fn payload_at<'a>(
        &mut self,
        host: u8,
        line: &'a [u8],
    ) -> Result<(Payload, &'a [u8]), Fault>
        ensures { GivesOrMemory (λ r. (the_bytes r.0, words r.1.now)) result
            (reading.payload_at (words line.now)) }
    {
        payload_at(&mut self.rooms[usize::from(host) % HOSTS], line)
    }
}
