ghost use Rattle.std.specs.Prelude.{◌≡◌, ◌<◌, ℕ, Option, Some, None};

use std::marker::Model;

/// The number that says "no index".
pub(crate) const NO_INDEX: u32 = 4_294_967_295;

/// An index or none, in four bytes.
#[derive(Clone, Copy)]
pub(crate) struct Link {
    raw: u32,
}

impl Model for Link {
    ghost use Rattle.std.specs.Prelude.{ℕ, Option};
    ghost use Rattle.rds_msgs_lists.specs.Links.{raw_link, link_raw, raw_link_raw};

    ghost Value = { Option ℕ };

    ghost view = { λ l. raw_link l.raw };

    ghost inverse = { λ o. record { raw = link_raw o } };

    ghost inverse_ok = { λ a h i. record { raw = raw_link_raw a.raw i } };
}

impl Link {
    pub(crate) fn none() -> Link
        ensures { result ≡ None }
    {
        Link { raw: NO_INDEX }
    }

    pub(crate) fn to(at: u32) -> Link
        requires { at < NO_INDEX }
        ensures { result ≡ Some at }
    {
        Link { raw: at }
    }

    pub(crate) fn get(self) -> Option<u32>
        ensures { result ≡ self }
    {
        if self.raw == NO_INDEX {
            None
        } else {
            Some(self.raw)
        }
    }
}
