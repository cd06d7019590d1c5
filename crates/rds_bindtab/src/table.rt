ghost use Rattle.std.specs.Prelude.{◌≡◌, ◌≤◌, IfOk};
ghost use Rattle.rds_model.specs.declared.entry.TheConstants.{MAX_SLOTS};

use crate::rule::PortRule;
use crate::seat::BindSeat;
use crate::view::View;
use atomic_table::Table;
use rds_wire::Memory;
use std::alloc::Global;
use std::marker::Model;

/// The word that numbers slots stands behind the words of the ports.
pub(crate) const DRAW_WORD: usize = 65536;

// The words of a table at first. They are copied from here, so that no memory is filled with zeros for that alone.
static WORDS: [u64; DRAW_WORD + 1] = [0; DRAW_WORD + 1];

/// One word for each port, which is 0 or 1 plus the slot of the socket that holds it, and one word that numbers slots.
/// Contracts see which table it is.
#[derive(Drop)]
pub struct BindTable {
    pub(crate) table: Table<(), View, u16, PortRule, Global>,
    pub(crate) slots: u16,
}

impl Model for BindTable {
    ghost use Rattle.std.specs.Prelude.{◌≡◌, ◌≤◌};
    ghost use Rattle.rds_model.specs.declared.entry.TheConstants.{MAX_SLOTS};
    ghost use Rattle.rds_seats.specs.Views.{Table};

    ghost Value = { Table };

    ghost view = { λ t. record { id = t.table.shared.table_id; slots = t.slots } };

    ghost invariant = { λ t. (t.table.shared.key ≡ t.slots) × (t.table.shared.table_id.words ≡ 65537) × (t.table.shared.table_id.slots ≡ 0) × (t.slots ≤ MAX_SLOTS) };
}

impl BindTable {
    ghost use Rattle.rds_bindtab.specs.Seats.{first_view};
    ghost use Rattle.rds_model.specs.declared.entry.TheConstants.{MAX_SLOTS};

    /// A table with 1 to 1,024 slots, and its first seat. All words are 0.
    ///
    /// # Errors
    ///
    /// Where there is no memory for its words.
    pub fn new(alloc: Global, slots: u16) -> Result<(BindTable, BindSeat), Memory>
        requires { (1 ≤ slots) × (slots ≤ MAX_SLOTS) }
        ensures slots { IfOk result (λ r. r.0.slots ≡ slots) }
        ensures seat { IfOk result (λ r. (r.1.table ≡ r.0) × (r.1.view ≡ first_view slots)) }
    {
        let (table, seat) = Table::of_words(alloc, &WORDS, &slots)?;
        let table = BindTable { table, slots };
        let seat = BindSeat {
            seat,
            slot: None,
            port: None,
        };
        Ok((table, seat))
    }
}
