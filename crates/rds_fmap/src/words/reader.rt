ghost use Rattle.std.specs.Prelude.{◌≡◌};
ghost use Rattle.rds_fmap.specs.Readers.{ReaderView, HasSeen, IsLook};
ghost use Rattle.rds_fmap.specs.declared.words.view.Look.{Look};

use super::PORTS;
use super::plays::Load;
use super::rule::Words;
use super::view::View;
use crate::maps::MapReader;
use crate::seen::Seen;
use atomic_table::Seat;
use std::marker::Model;
use std::sync::Arc;

/// A reader of the words. Contracts see its pair and what its looks have found.
#[derive(Drop)]
pub struct Reader {
    pub(crate) words: Arc<Words>,
    pub(crate) seat: Seat<(), View>,
}

impl Model for Reader {
    ghost use Rattle.std.specs.Prelude.{◌≡◌, [], false};
    ghost use Rattle.std.specs.Arc.{arc_value};
    ghost use Rattle.rds_fmap.specs.Readers.{NeverFalls, ReaderView, reader_view};

    ghost Value = { ReaderView };

    ghost view = { λ r. reader_view r.seat.table_id r.seat.me.0 };

    ghost invariant = { λ r. (r.seat.table_id ≡ (arc_value r.words).shared.table_id) × (r.seat.table_id.words ≡ 2048) × (r.seat.me.1 ≡ []) × (r.seat.me.0.writes ≡ false) × NeverFalls r.seat.me.0.looks };
}

impl MapReader for Reader {
    ghost use Rattle.rds_fmap.specs.Readers.{HasSeen, IsLook};
    ghost use Rattle.atomic_table.specs.Seated.{TableId};

    ghost Pair = { TableId };

    ghost pair = { λ r. r.pair };

    ghost has_seen = { HasSeen };

    ghost is_look = { IsLook };

    fn bit(&mut self, port: u16) -> Seen {
        let word = usize::from(port / PORTS);
        let shared = &self.words.shared;
        let number = shared.load::<Load>(&mut self.seat, word);
        Seen {
            version: number >> 32,
            set: number >> (port % PORTS) & 1 == 1,
        }
    }
}
