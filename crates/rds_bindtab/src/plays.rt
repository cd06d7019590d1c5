// What each kind of step leaves its seat with.
ghost use Rattle.rds_bindtab.specs.Plays.{drew, exchanged, released, looked, learned};
ghost use Rattle.rds_bindtab.specs.Seats.{after_split, newcomer, without_slot, with_slot_of, note_of, note_of_steps, joined, spent};

use crate::view::View;
use atomic_table::{Join, Play, Split};

pub(crate) struct Draw;

impl Play<(), View> for Draw {
    ghost then = { drew };
}

pub(crate) struct Claim;

impl Play<(), View> for Claim {
    ghost then = { exchanged };
}

pub(crate) struct Release;

impl Play<(), View> for Release {
    ghost then = { released };
}

pub(crate) struct Look;

impl Play<(), View> for Look {
    ghost then = { looked };
}

pub(crate) struct Learn;

impl Play<(), View> for Learn {
    ghost then = { learned };
}

pub(crate) struct Seating;

impl Split<View> for Seating {
    ghost left = { after_split };

    ghost right = { newcomer };
}

pub(crate) struct Handing;

impl Split<View> for Handing {
    ghost left = { without_slot };

    ghost right = { with_slot_of };
}

pub(crate) struct Noting;

impl Split<View> for Noting {
    ghost left = { λ v. v };

    ghost right = { note_of };
}

pub(crate) struct NotingSteps;

impl Split<View> for NotingSteps {
    ghost left = { λ v. v };

    ghost right = { note_of_steps };
}

pub(crate) struct Joining;

impl Join<View> for Joining {
    ghost both = { joined };

    ghost spent = { spent };
}
