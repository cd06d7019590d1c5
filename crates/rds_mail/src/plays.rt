// What each kind of step leaves its pass with.
ghost use Rattle.rds_mail.specs.Views.{putting, getting, after_split, newcomer, note_of, told, joined, spent};
ghost use Rattle.rds_mail.specs.Plays.{Puts, Gets, Emptied, Compared};

use crate::view::View;
use crossbeam_queue::protocol::{Join, Lesson, Outcome, Split};

pub(crate) struct Putting;

impl<T> Outcome<T, View<T>> for Putting {
    ghost then = { Puts };
}

pub(crate) struct Getting;

impl<T> Outcome<T, View<T>> for Getting {
    ghost then = { Gets };
}

impl<T> Lesson<T, View<T>> for Getting {
    ghost fact = { Emptied };
}

pub(crate) struct Comparing;

impl<T> Lesson<T, View<T>> for Comparing {
    ghost fact = { Compared };
}

// The first pass becomes the first putter and the getter.
pub(crate) struct Roles;

impl<T> Split<View<T>> for Roles {
    ghost left = { putting };

    ghost right = { getting };
}

pub(crate) struct Splitting;

impl<T> Split<View<T>> for Splitting {
    ghost left = { after_split };

    ghost right = { newcomer };
}

pub(crate) struct Noting;

impl<T> Split<View<T>> for Noting {
    ghost left = { λ v. v };

    ghost right = { note_of };
}

pub(crate) struct Telling;

impl<T> Join<View<T>> for Telling {
    ghost both = { told };

    ghost spent = { spent };
}

pub(crate) struct Joining;

impl<T> Join<View<T>> for Joining {
    ghost both = { joined };

    ghost spent = { spent };
}
