//! Frames of the RDS wire format: the 48-byte header, its checksum and its faults, and shared payloads.
#![tactic(auto)]

mod codec;
mod ext;
mod frame;
mod generations;
mod header;
mod kind;
mod laws;
mod memory;
mod payload;
mod payloads;
mod sum;

pub use codec::{decode, encode};
pub use ext::{Ext, next_ext, put_ext};
pub use frame::Frame;
pub use generations::generation;
pub use header::{ACK_REQUIRED, CONG_BITMAP, Header, RETRANSMITTED};
pub use kind::{Kind, MAP_LENGTH, MAX_LENGTH, Malformed, check, kind_of};
pub use laws::{one_ext, one_header};
pub use memory::Memory;
pub use payload::Payload;
pub use payloads::Payloads;
pub use sum::{sealed, sum_ok};
