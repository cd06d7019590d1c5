use super::view::View;
use atomic_table::{Table, TableRule};
use std::alloc::Global;

// What holds of the words and of all views between any two atomic steps.
pub(crate) struct MapRule;

impl TableRule<(), View, ()> for MapRule {
    ghost use Rattle.rds_fmap.specs.Shared.{Ruled};
    ghost use Rattle.rds_fmap.specs.Views.{first_view};

    ghost holds = { λ _. Ruled };

    ghost first = { λ _. first_view };
}

pub(crate) type Words = Table<(), View, (), MapRule, Global>;
