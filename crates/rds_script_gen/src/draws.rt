//! The numbers that a seed gives.

ghost use Rattle.std.specs.Prelude.{◌≡◌, ◌<◌, ◌≤◌};
ghost use Rattle.rds_script_gen.specs.Generator.{answer, next_state};

const FACTOR: u64 = 6_364_136_223_846_793_005;

const SUMMAND: u64 = 1_442_695_040_888_963_407;

/// A draw answers by the bits of the state from this one upward.
const LOWEST_BIT: u32 = 33;

/// A state, and each draw moves it on.
#[derive(Drop)]
pub(crate) struct Draws {
    state: u64,
}

impl Draws {
    pub(crate) fn new(seed: u64) -> Draws
        ensures { result.state ≡ seed }
    {
        Draws { state: seed }
    }

    /// The next draw: a number below `bound`.
    pub(crate) fn below(&mut self, bound: u8) -> u8
        requires { 1 ≤ bound }
        ensures state { self.new.state ≡ next_state self.old.state }
        ensures value { result ≡ answer bound self.new.state }
        ensures below { result < bound }
    {
        self.state = self.state.wrapping_mul(FACTOR).wrapping_add(SUMMAND);
        ((self.state >> LOWEST_BIT) % u64::from(bound)) as u8
    }
}
