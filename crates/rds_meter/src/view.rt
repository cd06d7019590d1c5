use std::collections::LinkedList;

/// One atomic step of a seat on the word of this number, and what it found.
/// No value of it is made when a program runs.
pub enum Step {
    /// A fetch and add. `after` is the word after it.
    Added { word: u64, amount: u64, after: u64 },
    /// A store of a slot's receive limit.
    Stored { word: u64, limit: u64 },
    /// A load.
    Loaded { word: u64, found: u64 },
    /// A fetch and or, which sets the port's bit.
    Raised { port: u16 },
    /// A fetch and and, which clears the port's bit.
    Lowered { port: u16 },
    /// An addition of 1 to the change number. `after` is the number after it.
    Bumped { after: u64 },
}

/// How far a seat has come with the check that follows an addition to a put word.
/// No value of it is made when a program runs.
pub enum Stage {
    Idle,
    /// The put word was added to, and was this much after it.
    Put { slot: u16, put: u64 },
    /// Then the limit of the same slot was loaded.
    Limited { slot: u16, put: u64, limit: u64 },
}

/// What a seat found of one slot: the put word after its addition, then the limit, then the taken word.
/// No value of it is made when a program runs.
pub struct Check {
    pub slot: u16,
    pub put: u64,
    pub limit: u64,
    pub taken: u64,
    /// The port whose bit it raised.
    pub raised: Option<u16>,
}

/// What a seat knows. It stands in contracts alone: no value of it is made when a program runs.
pub struct View {
    /// How many slots the meter was made for.
    pub slots: u16,
    /// For how many seats this one stands.
    pub weight: u64,
    /// How many seats may still be split off.
    pub splits: u64,
    pub stage: Stage,
    /// The checks that are closed, in order.
    pub checks: LinkedList<Check>,
    /// The checks that have yet to raise a bit, the latest first.
    pub pending: LinkedList<Check>,
    /// The steps that this seat and those joined into it have made.
    pub steps: LinkedList<Step>,
}
