// What each kind of step leaves its seat with.
ghost use Rattle.rds_link.specs.Plays.{drew, looked, shut, learned};
ghost use Rattle.rds_link.specs.Seats.{kept_half, given_half, note_of, heard, spent};

use crate::words::view::View;
use atomic_table::{Join, Play, Split};

pub(crate) struct Draw;

impl Play<(), View> for Draw {
    ghost then = { drew };
}

pub(crate) struct Look;

impl Play<(), View> for Look {
    ghost then = { looked };
}

pub(crate) struct Shut;

impl Play<(), View> for Shut {
    ghost then = { shut };
}

pub(crate) struct Learn;

impl Play<(), View> for Learn {
    ghost then = { learned };
}

pub(crate) struct Halving;

impl Split<View> for Halving {
    ghost left = { kept_half };

    ghost right = { given_half };
}

pub(crate) struct Noting;

impl Split<View> for Noting {
    ghost left = { λ v. v };

    ghost right = { note_of };
}

pub(crate) struct Hearing;

impl Join<View> for Hearing {
    ghost both = { heard };

    ghost spent = { spent };
}
