// What each kind of step leaves its seat with.
ghost use Rattle.rds_fmap.specs.Plays.{put, looked, learned};
ghost use Rattle.rds_fmap.specs.Views.{as_before, newcomer, joined, spent};

use super::view::View;
use atomic_table::{Join, Play, Split};

pub(crate) struct Put;

impl Play<(), View> for Put {
    ghost then = { put };
}

pub(crate) struct Load;

impl Play<(), View> for Load {
    ghost then = { looked };
}

pub(crate) struct Learn;

impl Play<(), View> for Learn {
    ghost then = { learned };
}

pub(crate) struct Seating;

impl Split<View> for Seating {
    ghost left = { as_before };

    ghost right = { newcomer };
}

pub(crate) struct Joining;

impl Join<View> for Joining {
    ghost both = { joined };

    ghost spent = { spent };
}
