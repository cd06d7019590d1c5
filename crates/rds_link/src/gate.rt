ghost use Rattle.std.specs.Prelude.{◌≡◌, true};

/// What a caller asks before each of its commands.
pub trait Gate {
    /// Whether the caller of host number `point`, from 0, may go on with its command number `turn`, from 0.
    fn at(&self, point: u32, turn: u32) -> bool;
}

/// The gate that lets every caller go on at once.
#[derive(Clone, Copy, Drop)]
pub struct OpenGate;

impl Gate for OpenGate {
    fn at(&self, _point: u32, _turn: u32) -> bool
        ensures { result ≡ true }
    {
        true
    }
}
