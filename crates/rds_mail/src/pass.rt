use crate::view::View;
use crossbeam_queue::SegPass;
use std::marker::Model;

/// The right to put into one mailbox. Contracts see which mailbox, the putter's number, how many putters were split off it,
/// and what it has put.
#[derive(Drop)]
pub struct PutPass<T> {
    pub(crate) pass: SegPass<T, View<T>>,
}

impl<T> Model for PutPass<T> {
    ghost use Rattle.std.specs.Prelude.{◌≡◌, true, None};
    ghost use Rattle.rds_mail.specs.Passes.{Putter, putter};

    ghost Value = { Putter T };

    ghost view = { λ p. putter p.pass };

    ghost invariant = { λ p. (p.pass.me.hand ≡ None) × (p.pass.me.spare ≡ None) × (p.pass.me.view.client.puts ≡ true) };
}

/// The right to get from one mailbox. Contracts see which mailbox, what was got, what notes told, which putters were
/// joined into it, and how many of its counted gets have found the queue empty.
#[derive(Drop)]
pub struct GetPass<T> {
    pub(crate) pass: SegPass<T, View<T>>,
    // How often a counted get found the queue empty.
    pub(crate) empties: u64,
}

impl<T> Model for GetPass<T> {
    ghost use Rattle.std.specs.Prelude.{◌≡◌, true, None};
    ghost use Rattle.rds_mail.specs.Passes.{Getter, getter};

    ghost Value = { Getter T };

    ghost view = { λ g. getter g.pass g.empties };

    ghost invariant = { λ g. (g.pass.me.hand ≡ None) × (g.pass.me.spare ≡ None) × (g.pass.me.view.client.gets ≡ true) };
}

/// A note of what a putter had put. Contracts see what they saw of the putter then.
#[derive(Drop)]
pub struct Note<T> {
    pub(crate) pass: SegPass<T, View<T>>,
}

impl<T> Model for Note<T> {
    ghost use Rattle.std.specs.Prelude.{◌≡◌, true, None};
    ghost use Rattle.rds_mail.specs.Passes.{Putter, putter};

    ghost Value = { Putter T };

    ghost view = { λ n. putter n.pass };

    ghost invariant = { λ n. (n.pass.me.hand ≡ None) × (n.pass.me.spare ≡ None) × (n.pass.me.view.client.notes ≡ true) };
}
