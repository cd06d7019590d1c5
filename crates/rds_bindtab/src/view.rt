use std::collections::LinkedList;

/// What the holder of a port says of it: the port, its slot, and how often it had released a port by then.
/// No value of it is made when a program runs.
pub struct Telling {
    pub port: u16,
    pub slot: u16,
    pub releases: u64,
}

/// One atomic step of a seat, and what it found. No value of it is made when a program runs.
pub enum Step {
    /// A fetch and add on the word that numbers slots.
    Drew {
        found: u64,
    },
    /// A compare and exchange on a port's word, by the seat of this slot. The port was free where 0 was found.
    Claimed {
        port: u16,
        slot: u16,
        found: u64,
    },
    /// A store of 0 into a port's word.
    Released {
        port: u16,
    },
    /// A load of a port's word: the slot found, and what the seat had been told before.
    Looked {
        port: u16,
        found: Option<u16>,
        told: LinkedList<Telling>,
    },
}

/// What a seat knows. It stands in contracts alone: no value of it is made when a program runs.
pub struct View {
    /// How many slots the table has.
    pub slots: u16,
    pub slot: Option<u16>,
    pub port: Option<u16>,
    /// For how many seats this one stands. A note stands for none.
    pub weight: u64,
    /// How many seats may still be split off.
    pub splits: u64,
    pub draws: u64,
    /// How often this seat has released a port.
    pub releases: u64,
    pub told: LinkedList<Telling>,
    /// The steps that this seat and those joined into it have made.
    pub steps: LinkedList<Step>,
}
