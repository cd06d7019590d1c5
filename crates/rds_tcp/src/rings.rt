//! The two rings that join an end to its threads.
ghost use Rattle.std.specs.Prelude.{◌≡◌, [], IfOk};
ghost use Rattle.rtrb.specs.Ring.{sent, received, IsPair};

use rds_link::ROOM;
use rds_wire::Memory;
use rtrb::{Consumer, Producer, RingBuffer};
use std::alloc::Global;

/// What an end holds of its two rings.
#[derive(Drop)]
pub(crate) struct Near {
    pub(crate) out: Producer<u8>,
    pub(crate) inp: Consumer<u8>,
}

/// What its two threads hold of them.
#[derive(Drop)]
pub(crate) struct Far {
    pub(crate) incoming: Producer<u8>,
    pub(crate) outgoing: Consumer<u8>,
}

/// Two empty rings, of each of which one half is the end's and the other its threads'.
pub(crate) fn rings(alloc: Global) -> Result<(Near, Far), Memory>
    ensures pairs { IfOk result (λ r. IsPair r.0.out r.1.outgoing × IsPair r.1.incoming r.0.inp) }
    ensures empty { IfOk result (λ r. (sent r.0.out ≡ []) × (received r.0.inp ≡ [])) }
{
    let (out, outgoing) = RingBuffer::new(alloc, ROOM)?;
    let (incoming, inp) = RingBuffer::new(alloc, ROOM)?;
    Ok((Near { out, inp }, Far { incoming, outgoing }))
}
