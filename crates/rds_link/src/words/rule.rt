use crate::words::view::View;
use atomic_table::TableRule;

// What holds of the two words and of all views between any two atomic steps.
pub(crate) struct StreamRule;

impl TableRule<(), View, ()> for StreamRule {
    ghost use Rattle.rds_link.specs.Rule.{Ruled};
    ghost use Rattle.rds_link.specs.Seats.{first_view};

    ghost holds = { λ _. Ruled };

    ghost first = { λ _. first_view };
}
