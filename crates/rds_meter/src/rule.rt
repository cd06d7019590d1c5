use crate::view::View;
use atomic_table::TableRule;

// What holds of the words and of all views between any two atomic steps.
pub(crate) struct MeterRule;

impl TableRule<(), View, u16> for MeterRule {
    ghost use Rattle.rds_meter.specs.Shared.{Ruled};
    ghost use Rattle.rds_meter.specs.Seats.{first_view};

    ghost holds = { λ _. Ruled };

    ghost first = { first_view };
}
