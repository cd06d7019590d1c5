// What each kind of step leaves its seat with.
ghost use Rattle.rds_meter.specs.Plays.{added, stored, loaded, raised, lowered, bumped, learned};
ghost use Rattle.rds_meter.specs.Seats.{after_split, newcomer, joined, spent};

use crate::view::View;
use atomic_table::{Join, Play, Split};

pub(crate) struct Add;

impl Play<(), View> for Add {
    ghost then = { added };
}

pub(crate) struct Limit;

impl Play<(), View> for Limit {
    ghost then = { stored };
}

pub(crate) struct Load;

impl Play<(), View> for Load {
    ghost then = { loaded };
}

pub(crate) struct Raise;

impl Play<(), View> for Raise {
    ghost then = { raised };
}

pub(crate) struct Lower;

impl Play<(), View> for Lower {
    ghost then = { lowered };
}

pub(crate) struct Bump;

impl Play<(), View> for Bump {
    ghost then = { bumped };
}

pub(crate) struct Learn;

impl Play<(), View> for Learn {
    ghost then = { learned };
}

pub(crate) struct Seating;

impl Split<View> for Seating {
    ghost left = { after_split };

    ghost right = { newcomer };
}

pub(crate) struct Joining;

impl Join<View> for Joining {
    ghost both = { joined };

    ghost spent = { spent };
}
