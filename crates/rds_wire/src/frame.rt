use crate::{Header, Payload};

/// A header and the payload that follows it.
#[derive(Drop)]
pub struct Frame {
    pub header: Header,
    pub payload: Payload,
}
