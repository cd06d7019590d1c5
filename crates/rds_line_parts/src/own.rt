//! The host's own congestion map, as a line reads it.
ghost use Rattle.std.specs.Prelude.{◌≡◌, ℕ, List, None, IfOk};
ghost use Rattle.rds_cong.specs.Map.{no_ports};
ghost use Rattle.rds_meter.specs.Seats.{knowing};
ghost use Rattle.rds_line_parts.specs.Words.{after_steps, AddsNothing};
ghost use Rattle.rds_line_parts.specs.Own.{HasWords, loads_from, IsRefresh};

use crate::words::LineWords;
use rds_cong::{PortMap, WORDS};
use rds_wire::Memory;
use std::alloc::Global;
use std::marker::Model;

/// The host's own congestion map as a line last read it. Contracts see the map, and the change number that was found before
/// that reading.
#[derive(Drop)]
pub struct OwnMap {
    map: PortMap,
    change: Option<u64>,
}

impl Model for OwnMap {
    ghost use Rattle.rds_line_parts.specs.Own.{Own};

    ghost Value = { Own };

    ghost view = { λ o. record { map = o.map; change = o.change } };
}

impl OwnMap {
    /// A map that was never read. It has no ports.
    ///
    /// # Errors
    ///
    /// Where there is no memory for the map.
    pub fn new(alloc: Global) -> Result<OwnMap, Memory>
        ensures { IfOk result (λ o. o ≡ record { map = no_ports; change = None }) }
    {
        Ok(OwnMap {
            map: PortMap::new(alloc)?,
            change: None,
        })
    }

    /// The map as it was last read.
    pub fn map(&self) -> &PortMap
        ensures { result.now ≡ self.now.map }
    {
        &self.map
    }

    /// Loads the change number, and then all words of the map, or none where the number is the one that was found before the last
    /// reading. Answers whether the words were read.
    pub fn refresh(&mut self, words: &mut LineWords) -> bool
        ensures refresh { IsRefresh self.old self.new words.old words.new result }
        ensures parts { AddsNothing words.old.view words.new.view }
    {
        let number = words.change();
        let known = self.change == Some(number);
        if known {
            return false;
        }
        read_words(&mut self.map, words);
        self.change = Some(number);
        true
    }
}

// Loads each word of the map into its place.
fn read_words(map: &mut PortMap, words: &mut LineWords)
    ensures { (found : List ℕ) × HasWords map.new found × (words.new ≡ knowing words.old (after_steps words.old.view (loads_from 0 found))) }
{
    for i in 0..WORDS {
        let word = words.word(i);
        map.put_word(i, word);
    }
}
