use std::collections::LinkedList;

/// What one load of a word found. No value of it is made when a program runs.
pub struct Look {
    pub word: u64,
    pub number: u64,
}

/// What a seat of a pair knows. It stands in contracts alone: no value of it is made when a program runs.
pub struct View {
    /// Whether the seat is the writer's.
    pub writes: bool,
    /// The maps that it has published, in order, each as its bytes on the wire.
    pub published: LinkedList<LinkedList<u8>>,
    /// The lower halves of the words that it has put of the next map.
    pub part: LinkedList<u32>,
    /// What the loads of this seat and of those joined into it have found, in order.
    pub looks: LinkedList<Look>,
}
