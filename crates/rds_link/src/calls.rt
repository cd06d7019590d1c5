ghost use Rattle.std.specs.Prelude.{◌≡◌, ◌≢◌, ◌↔◌, [], IsTrue, true};
ghost use Rattle.rds_link.specs.Failing.{next_call, NextFails};

use std::alloc::AllocError;
use std::marker::Model;

/// Counts calls, of which those fail whose numbers, from 1, stand in a list.
#[derive(Drop)]
pub(crate) struct Calls {
    fail: Vec<u32>,
    made: u32,
}

impl Model for Calls {
    ghost use Rattle.rds_link.specs.Failing.{CallsView};

    ghost Value = { CallsView };

    ghost view = { λ c. record { fail = c.fail.items; made = c.made } };
}

impl Calls {
    pub(crate) fn new(fail: Vec<u32>) -> Calls
        ensures { result ≡ record { fail = fail.items; made = 0 } }
    {
        Calls { fail, made: 0 }
    }

    // Whether a call can fail.
    pub(crate) fn can_fail(&self) -> bool
        ensures { result ≡ true ↔ self.now.fail ≢ [] }
    {
        !self.fail.is_empty()
    }

    // Whether the call that is made now fails.
    pub(crate) fn fails(&mut self) -> bool
        ensures calls { self.new ≡ record self.old { made = next_call self.old.made } }
        ensures fails { IsTrue result ↔ NextFails self.old.fail self.old.made }
    {
        self.made = self.made.saturating_add(1);
        self.fail.contains(&self.made)
    }
}
