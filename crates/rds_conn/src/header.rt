ghost use Rattle.std.specs.Prelude.{◌≡◌, List, IfOk, if◌then◌else◌, ◌+◌};
ghost use Rattle.rds_wire.specs.declared.header.TheConstants.{ACK_REQUIRED as asking, RETRANSMITTED as again_flag};
ghost use Rattle.rds_model.specs.declared.entry.Entry.{Entry};
ghost use Rattle.rds_model.specs.Past.{last_passed};
ghost use Rattle.rds_model.specs.Owed.{header_of as owed_header, map_frame as owed_map, ack_frame as owed_ack, flag_if as flag};

use rds_cong::PortMap;
use rds_wire::{
    ACK_REQUIRED, CONG_BITMAP, Frame, Header, MAP_LENGTH, Memory, Payload, RETRANSMITTED, sealed,
};
use std::alloc::Global;

/// A header that acknowledges the last passed number.
#[tactic(auto, unfolding(rds_model::specs::Owed::header_of))]
pub(crate) fn header_of(
    last: u64,
    number: u64,
    len: u32,
    sport: u16,
    dport: u16,
    flags: u8,
) -> Header
    ensures { (past : List Entry) → last ≡ last_passed past → result ≡ owed_header past number len sport dport flags }
{
    sealed(Header {
        sequence: number,
        ack: last,
        len,
        sport,
        dport,
        flags,
        credit: 0,
        padding: [0; 4],
        csum: 0,
        ext: [0; 16],
    })
}

/// The frame of a congestion map.
pub(crate) fn map_frame(alloc: Global, last: u64, map: &PortMap) -> Result<Frame, Memory>
    ensures { IfOk result (λ f. (past : List Entry) → last ≡ last_passed past → f ≡ owed_map past map.now) }
{
    let mut bytes = [0; 8192];
    map.bytes(&mut bytes);
    let payload = Payload::copy_of(alloc, &bytes)?;
    let header = header_of(last, 0, MAP_LENGTH, 0, 0, CONG_BITMAP);
    Ok(Frame { header, payload })
}

/// An acknowledgement, which may ask for one itself.
pub(crate) fn ack_frame(alloc: Global, last: u64, asks: bool) -> Result<Frame, Memory>
    ensures { IfOk result (λ f. (past : List Entry) → last ≡ last_passed past → f ≡ owed_ack past asks) }
{
    let payload = Payload::copy_of(alloc, &[])?;
    let header = header_of(last, 0, 0, 0, 0, flag_if(asks, ACK_REQUIRED));
    Ok(Frame { header, payload })
}

/// The flags of a datagram.
pub(crate) fn data_flags(again: bool, asks: bool) -> u8
    ensures { result ≡ flag again again_flag + flag asks asking }
{
    flag_if(again, RETRANSMITTED) + flag_if(asks, ACK_REQUIRED)
}

fn flag_if(set: bool, flag: u8) -> u8
    ensures { result ≡ (if set then flag else 0) }
{
    if set { flag } else { 0 }
}
