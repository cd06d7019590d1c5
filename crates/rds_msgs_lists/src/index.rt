ghost use Rattle.std.specs.Prelude.{◌≡◌};

use std::marker::Model;

/// An index that `Lists` gave. Contracts see the number.
#[derive(Clone, Copy, PartialEq, Eq)]
pub struct Index {
    raw: u32,
}

impl Model for Index {
    ghost use Rattle.std.specs.Prelude.{ℕ};

    ghost Value = { ℕ };

    ghost view = { λ i. i.raw };

    ghost inverse = { λ n. record { raw = n } };
}

impl Index {
    pub(crate) fn to(raw: u32) -> Index
        ensures { result ≡ raw }
    {
        Index { raw }
    }

    /// The number.
    pub fn get(self) -> u32
        ensures { result ≡ self }
    {
        self.raw
    }
}
