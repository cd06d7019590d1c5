/// What an end knows of the two words of its stream. It stands in contracts alone: no value of it is made when a program runs.
pub struct View {
    /// The number that it drew, 1 or 2, or 0 before its draw.
    pub number: u64,
    /// How many draws it has left.
    pub draws: u64,
    /// A number that had been drawn when this view was split off.
    pub floor: u64,
    /// The number of the end that shut first, or 0 where it knows of none.
    pub first: u64,
    /// The number that the other end told it to have shut first, or 0.
    pub told: u64,
    /// Whether it has made its exchange.
    pub shut: bool,
}
