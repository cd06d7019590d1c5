//! What shows that a TCP stream has broken.
ghost use Rattle.std.specs.Prelude.{◌≡◌, IfOk};

use std::io;

/// Shows that a call on a TCP stream failed, or moved no byte where it was to move some. Nothing but such a call makes one.
#[derive(Clone, Copy, Drop)]
pub(crate) struct Break {
    shown: (),
}

impl Break {
    /// What such a call shows.
    pub(crate) fn by(call: &io::Result<usize>) -> Break
        requires { IfOk call.now (λ count. count ≡ 0) }
    {
        let _ = call;
        Break { shown: () }
    }
}
