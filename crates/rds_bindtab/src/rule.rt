use crate::view::View;
use atomic_table::TableRule;

// What holds of the words and of all views between any two atomic steps.
pub(crate) struct PortRule;

impl TableRule<(), View, u16> for PortRule {
    ghost use Rattle.rds_bindtab.specs.Shared.{Ruled};
    ghost use Rattle.rds_bindtab.specs.Seats.{first_view};

    ghost holds = { Ruled };

    ghost first = { first_view };
}
