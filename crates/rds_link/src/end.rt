ghost use Rattle.std.specs.Prelude.{◌≡◌, ◌≢◌, ◌≤◌, ◌<◌, ◌+◌, ◌++◌, ℕ, [], true, length, take, drop};
ghost use mathlib.Core.List.{IsPrefix};
ghost use Rattle.rds_link.specs.declared.end.Got.TheVariants as got;
ghost use Rattle.rds_link.specs.declared.end.Put.TheVariants as put;
ghost use Rattle.rds_link.specs.Answers.{bytes_got, bytes_put};
ghost use Rattle.rds_link.specs.Ends.{Means, Remains, SendsNothing, GetsNothing, CountsStay, FailsByNumber, RisesBy};
ghost use Rattle.rds_link.specs.Standing.{IsOver, GoesOn, Shuts};

use std::sync::Wait;

/// What a read answers.
#[derive(Clone, Copy, Debug, PartialEq, Eq)]
pub enum Got {
    /// So many bytes came.
    Bytes(usize),
    /// No byte is there now.
    Nothing,
    /// The stream has ended.
    Over,
}

/// What a write answers.
#[derive(Clone, Copy, Debug, PartialEq, Eq)]
pub enum Put {
    /// So many bytes were taken.
    Took(usize),
    /// There is no room now.
    Full,
    /// The stream has ended.
    Over,
}

/// An end of a stream of bytes. No call but `finish` and `rest` waits.
pub trait End: Drop {
    /// What an end has sent and got, where it tells that, how it stands, and which ends meet.
    ghost means: { Means Self };

    /// Reads some bytes to the front of `buf`, which isn't empty. `Over` has one of three causes: the end's first fault,
    /// an own `shut`, or the other end's, found by a load.
    fn read(&mut self, buf: &mut [u8]) -> Got
        requires { 0 < length buf.old }
        ensures count { (n : ℕ) → result ≡ got.Bytes n → (1 ≤ n) × (n ≤ length buf.old) }
        ensures rest { drop (bytes_got result) buf.new ≡ drop (bytes_got result) buf.old }
        ensures got { means.tells ≡ true → means.got self.new ≡ means.got self.old ++ take (bytes_got result) buf.new }
        ensures known { means.tells ≡ true → IsPrefix (means.known self.old) (take (bytes_got result) buf.new ++ means.known self.new) }
        ensures sent { SendsNothing means self.old self.new }
        ensures nothing { result ≡ got.Nothing → means.tells ≡ true → means.known self.new ≡ [] }
        ensures goes { result ≢ got.Over → GoesOn (means.stand self.old) (means.stand self.new) }
        ensures over { result ≡ got.Over → IsOver (means.stand self.old) (means.stand self.new) }
        ensures fails { FailsByNumber means self.old self.new }
        ensures nothings { result ≡ got.Nothing → RisesBy 1 (means.nothings self.old) (means.nothings self.new) }
        ensures others { result ≢ got.Nothing → means.nothings self.new ≡ means.nothings self.old }
        ensures fulls { means.fulls self.new ≡ means.fulls self.old }
        ensures meets { Remains means self.old self.new };

    /// Takes some bytes from the front of `piece`, which isn't empty. `Over` has the causes that it has at a read.
    fn write(&mut self, piece: &[u8]) -> Put
        requires { 0 < length piece.now }
        ensures count { (n : ℕ) → result ≡ put.Took n → (1 ≤ n) × (n ≤ length piece.now) }
        ensures sent { means.tells ≡ true → means.sent self.new ≡ means.sent self.old ++ take (bytes_put result) piece.now }
        ensures room { means.tells ≡ true → means.room self.old ≤ means.room self.new + bytes_put result }
        ensures got { GetsNothing means self.old self.new }
        ensures full { result ≡ put.Full → means.tells ≡ true → means.room self.new ≡ 0 }
        ensures goes { result ≢ put.Over → GoesOn (means.stand self.old) (means.stand self.new) }
        ensures over { result ≡ put.Over → IsOver (means.stand self.old) (means.stand self.new) }
        ensures fails { FailsByNumber means self.old self.new }
        ensures fulls { result ≡ put.Full → RisesBy 1 (means.fulls self.old) (means.fulls self.new) }
        ensures others { result ≢ put.Full → means.fulls self.new ≡ means.fulls self.old }
        ensures nothings { means.nothings self.new ≡ means.nothings self.old }
        ensures meets { Remains means self.old self.new };

    /// Shuts the end, which changes nothing where it had shut.
    fn shut(&mut self)
        ensures shut { Shuts (means.stand self.old) (means.stand self.new) }
        ensures sent { SendsNothing means self.old self.new }
        ensures got { GetsNothing means self.old self.new }
        ensures counts { CountsStay means self.old self.new }
        ensures meets { Remains means self.old self.new };

    /// Shuts the end, and returns when no thread of its own runs any more.
    fn finish<R: Wait>(self, rt: &R);

    /// Waits a short while, where nothing can be read or written.
    fn rest<R: Wait>(&self, rt: &R);
}
