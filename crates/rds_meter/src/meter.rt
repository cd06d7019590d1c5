ghost use Rattle.std.specs.Prelude.{◌≡◌, ◌≤◌, IfOk};
ghost use Rattle.rds_model.specs.declared.entry.TheConstants.{MAX_SLOTS};

use crate::places::CHANGE;
use crate::rule::MeterRule;
use crate::seat::MeterSeat;
use crate::view::View;
use atomic_table::Table;
use rds_wire::Memory;
use std::alloc::Global;
use std::marker::Model;

/// The words of a host: for each of 1,024 slots its receive limit and the bytes freed, put and taken, then the 1,024 words of
/// the host's congestion map, then a number that is raised with each change of the map. Contracts see which table it is.
#[derive(Drop)]
pub struct Meter {
    pub(crate) table: Table<(), View, u16, MeterRule, Global>,
    pub(crate) slots: u16,
}

impl Model for Meter {
    ghost use Rattle.std.specs.Prelude.{◌≡◌, ◌≤◌};
    ghost use Rattle.rds_model.specs.declared.entry.TheConstants.{MAX_SLOTS};
    ghost use Rattle.rds_seats.specs.Views.{Table};

    ghost Value = { Table };

    ghost view = { λ m. record { id = m.table.shared.table_id; slots = m.slots } };

    ghost invariant = { λ m. (m.table.shared.table_id.words ≡ 5121) × (m.table.shared.table_id.slots ≡ 0) × (m.slots ≤ MAX_SLOTS) };
}

impl Meter {
    ghost use Rattle.rds_meter.specs.Seats.{first_view};
    ghost use Rattle.rds_model.specs.declared.entry.TheConstants.{MAX_SLOTS};

    /// A meter for 1 to 1,024 slots, and its first seat. All words are 0.
    ///
    /// # Errors
    ///
    /// Where there is no memory for its words.
    pub fn new(alloc: Global, slots: u16) -> Result<(Meter, MeterSeat), Memory>
        requires { (1 ≤ slots) × (slots ≤ MAX_SLOTS) }
        ensures slots { IfOk result (λ r. r.0.slots ≡ slots) }
        ensures seat { IfOk result (λ r. (r.1.table ≡ r.0) × (r.1.slot ≡ None) × (r.1.view ≡ first_view slots)) }
    {
        let words = vec![in alloc; 0u64; CHANGE + 1]?;
        let (table, seat) = Table::of_words(alloc, words.as_slice(), &slots)?;
        let meter = Meter { table, slots };
        let seat = MeterSeat { seat, slot: None };
        Ok((meter, seat))
    }
}
