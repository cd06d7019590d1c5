use std::collections::LinkedList;

/// What one putter has put: its number, how many putters were split off it, and its items, oldest first. The number is a
/// path: that of the first putter is empty, and that of the k-th putter split off p is k before p's number.
/// No value of it is made when a program runs.
pub struct Account<T> {
    pub number: LinkedList<u64>,
    pub splits: u64,
    pub put: LinkedList<T>,
}

/// What a pass knows. It stands in contracts alone: no value of it is made when a program runs.
pub struct View<T> {
    /// Whether it may put.
    pub puts: bool,
    /// Whether it may get.
    pub gets: bool,
    /// Whether it is a note of what a putter had put.
    pub notes: bool,
    /// What it has put, or the putter of which it is a note.
    pub account: Account<T>,
    /// What it got, each item beside the number of its putter.
    pub got: LinkedList<(LinkedList<u64>, T)>,
    /// What notes told it.
    pub told: LinkedList<Account<T>>,
    /// The putters that were joined into it.
    pub joined: LinkedList<Account<T>>,
}
