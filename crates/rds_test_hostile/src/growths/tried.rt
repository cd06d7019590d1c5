/// What came of a call.
#[derive(Clone, Copy)]
pub struct Tried {
    /// Whether it answered that memory ran out, and was made once more.
    pub again: bool,
    /// A number that tells what it did in the end.
    pub value: u64,
}

impl Tried {
    /// A length as what came of a call.
    pub fn of(again: bool, length: usize) -> Tried {
        Tried {
            again,
            value: length as u64,
        }
    }
}
