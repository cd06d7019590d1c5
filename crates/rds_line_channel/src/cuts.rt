//! The cuts that a line took.
ghost use Rattle.std.specs.Prelude.{◌≡◌, true, false, [], OnOk, OnErr};
ghost use Rattle.rds_line_channel.specs.Channel.{noted_cut};

use rds_wire::Memory;
use std::alloc::Global;
use std::marker::Model;

/// For each cut that a line took the number of the stream that it shut, or 0 where none was open. Contracts see these numbers,
/// and whether there is room for one more.
#[derive(Drop)]
pub(crate) struct Cuts {
    numbers: Vec<u32>,
    has_room: bool,
}

impl Model for Cuts {
    ghost use Rattle.std.specs.Prelude.{◌≡◌, ◌<◌, true, length, vec_capacity};
    ghost use Rattle.rds_line_channel.specs.Channel.{CutsView};

    ghost Value = { CutsView };

    ghost view = { λ c. record { numbers = c.numbers.items; has_room = c.has_room } };

    ghost invariant = { λ c. c.has_room ≡ true → length c.numbers.items < vec_capacity c.numbers };
}

impl Cuts {
    /// No cuts.
    pub fn new(alloc: Global) -> Cuts
        ensures { result ≡ record { numbers = []; has_room = false } }
    {
        Cuts {
            numbers: Vec::new(alloc),
            has_room: false,
        }
    }

    /// Makes room for the number of one cut more.
    ///
    /// # Errors
    ///
    /// Where there is no memory for that number.
    pub fn reserve(&mut self) -> Result<(), Memory>
        ensures ok { OnOk result (self.new ≡ record self.old { has_room = true }) }
        ensures err { OnErr result (self.new ≡ self.old) }
    {
        if self.numbers.reserve(1).is_err() {
            return Err(Memory);
        }
        self.has_room = true;
        Ok(())
    }

    /// Notes a cut that shut the stream of this number, or none.
    pub fn push(&mut self, number: u32)
        requires { self.old.has_room ≡ true }
        ensures { self.new ≡ noted_cut self.old number }
    {
        match self.numbers.push(number) {
            Ok(()) => self.has_room = false,
            Err(_) => unreachable!(),
        }
    }
}
