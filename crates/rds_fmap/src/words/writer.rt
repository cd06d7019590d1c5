ghost use Rattle.std.specs.Prelude.{◌≡◌, ℕ, ◌+◌, ◌<◌, ◌^◌, [], ◌∷◌, ◌++◌, length, true};
ghost use Rattle.rds_cong.specs.Halves.{IsHalf};

use super::WORDS;
use super::plays::Put;
use super::rule::Words;
use super::view::View;
use crate::maps::MapWriter;
use atomic_table::Seat;
use rds_cong::PortMap;
use rds_wire::Memory;
use std::marker::Model;
use std::sync::{Arc, Wait};

/// The writer of the words. Contracts see its pair and the maps that it has published.
#[derive(Drop)]
pub struct Writer {
    pub(crate) words: Arc<Words>,
    pub(crate) seat: Seat<(), View>,
    // How many maps were published.
    pub(crate) version: u64,
}

impl Model for Writer {
    ghost use Rattle.std.specs.Prelude.{◌≡◌, [], length, true};
    ghost use Rattle.std.specs.Arc.{arc_value};
    ghost use Rattle.rds_fmap.specs.Readers.{WriterView, writer_view};

    ghost Value = { WriterView };

    ghost view = { λ w. writer_view w.seat.table_id w.seat.me.0 };

    ghost invariant = { λ w. (w.seat.table_id ≡ (arc_value w.words).shared.table_id) × (w.seat.table_id.words ≡ 2048) × (w.seat.me.1 ≡ []) × (w.seat.me.0.writes ≡ true) × (w.seat.me.0.part ≡ []) × (w.version ≡ length w.seat.me.0.published) };
}

impl MapWriter for Writer {
    ghost use Rattle.atomic_table.specs.Seated.{TableId};

    ghost Pair = { TableId };

    ghost pair = { λ w. w.pair };

    ghost published = { λ w. w.published };

    ghost never_fails = { Unit {0} };

    fn publish<R: Wait>(&mut self, _rt: &R, map: &PortMap) -> Result<u64, Memory> {
        let version = self.version + 1;
        put_all(&self.words, &mut self.seat, version, map);
        self.version = version;
        Ok(version)
    }
}

// The ports from 32 * j on, as the lower half of their word.
fn half(map: &PortMap, j: usize) -> u32
    requires { j < WORDS }
    ensures { IsHalf map.now j result }
{
    let two = map.word(j / 2);
    if j % 2 == 0 {
        (two % (1 << 32)) as u32
    } else {
        (two >> 32) as u32
    }
}

// Puts the map with this version, word after word.
fn put_all(words: &Words, seat: &mut Seat<(), View>, version: u64, map: &PortMap)
    requires table { (seat.old.table_id ≡ words.now.shared.table_id) × (seat.old.table_id.words ≡ 2048) }
    requires writer { (seat.old.me.1 ≡ []) × (seat.old.me.0.writes ≡ true) × (seat.old.me.0.part ≡ []) }
    requires version { (version ≡ length seat.old.me.0.published + 1) × (version < 2 ^ 32) }
    ensures table { seat.new.table_id ≡ seat.old.table_id }
    ensures view { seat.new.me ≡ (record seat.old.me.0 { published = seat.old.me.0.published ++ map.now ∷ [] }, []) }
{
    map.known();
    for j in 0..WORDS {
        let number = (version << 32) + u64::from(half(map, j));
        words.shared.store::<Put>(seat, j, number);
    }
}
