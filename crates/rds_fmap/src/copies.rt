//! Maps kept as the two copies of `left_right`: a reader takes a whole map at once, and answers from its own copy of the last
//! one that it took. What is promised is about one reader: `left_right` doesn't tell that a look leaves a reader at its writer,
//! so the two can't be compared at the end.
mod pairing;
mod plays;
mod reader;
mod shown;
mod view;
mod writer;

pub use pairing::pair;
pub use reader::Reader;
pub use shown::Shown;
pub use view::View;
pub use writer::Writer;
