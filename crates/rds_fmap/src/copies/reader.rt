ghost use Rattle.left_right.specs.Sides.{view};
ghost use Rattle.rds_fmap.specs.Entries.{IsLatest, LookDone, TakesCopy};

use super::plays::Enter;
use super::shown::Shown;
use super::view::{CopyRule, View};
use crate::maps::MapReader;
use crate::seen::Seen;
use core::mem::replace_with;
use left_right::reader;
use std::marker::Model;

type RuledReader = reader::Reader<Shown, View, CopyRule>;

/// A reader of the two copies, with a copy of its own of the last map that it took. Contracts see what it has found, and the copy.
#[derive(Drop)]
pub struct Reader {
    pub(crate) ruled: RuledReader,
    pub(crate) copy: Shown,
}

impl Model for Reader {
    ghost use Rattle.std.specs.Prelude.{◌≡◌};
    ghost use Rattle.left_right.specs.Sides as sides;
    ghost use Rattle.rds_fmap.specs.Entries.{CopyReaderView, copy_reader_view, IsLatest};

    ghost Value = { CopyReaderView };

    ghost view = { λ r. copy_reader_view (sides.view r.ruled.place) r.copy };

    ghost invariant = { λ r. IsLatest (sides.view r.ruled.place).found r.copy };
}

impl MapReader for Reader {
    ghost use Rattle.rds_fmap.specs.Entries.{HasSeen, IsLook};

    ghost Pair = { Unit {0} };

    ghost pair = { λ _. tt };

    ghost has_seen = { HasSeen };

    ghost is_look = { IsLook };

    fn bit(&mut self, port: u16) -> Seen {
        replace_with(self, port, Reader::look)
    }
}

impl Reader {
    // The copy answers, once it was tried to take what is shown.
    fn look(self, port: u16) -> (Reader, Seen)
        ensures { LookDone self result.0 port result.1 }
    {
        let Self { ruled, mut copy } = self;
        let ruled = take(ruled, &mut copy);
        let seen = Seen {
            version: copy.version,
            set: copy.map.has(port),
        };
        (Reader { ruled, copy }, seen)
    }
}

// Tries to enter, and takes the map that is shown into the copy.
fn take(ruled: RuledReader, copy: &mut Shown) -> RuledReader
    requires { IsLatest (view ruled.place).found copy.old }
    ensures { TakesCopy (view ruled.place) copy.old (view result.place) copy.new }
{
    match ruled.enter_as::<Enter>() {
        Ok(reading) => {
            copy.renew(reading.get());
            reading.leave()
        }
        Err(ruled) => ruled,
    }
}
