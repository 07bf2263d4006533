//! Both ends of a session's ring to its writer, in one thread: made, and compared after the join.
ghost use Rattle.std.specs.Prelude.{◌≡◌, IfOk, IfErr};
ghost use Rattle.gate_link_stages.specs.Faults.{IsRingRefusal, IsRingSize};
ghost use Rattle.gate_link_stages.specs.Posting.{posted, written, post_ended, write_ended, SamePoster, SameWriter, ArePostPair, IsFreshPost, Finishes};

use crate::fault::LinkFault;
use crate::post::{PostedBytes, Poster, Writer};
use rtrb::RingBuffer;
use spread_rules_ids::limits::MAX_RING;
use std::alloc::Allocator;

/// Whether the end mark was taken. Then the writer has what was given; else a beginning of it.
pub fn finished<A: Allocator>(poster: &mut Poster<A>, writer: &mut Writer<A>) -> bool
    requires { ArePostPair poster.old writer.old }
    ensures ring { SamePoster poster.old poster.new × SameWriter writer.old writer.new }
    ensures same { (posted poster.new ≡ posted poster.old)
        × (written writer.new ≡ written writer.old) }
    ensures marks { (post_ended poster.new ≡ post_ended poster.old)
        × (write_ended writer.new ≡ write_ended writer.old) }
    ensures value { result ≡ write_ended writer.old }
    ensures finished { Finishes result (post_ended poster.old)
        (posted poster.old) (written writer.old) }
{
    writer.consumer.slots_beside(&mut poster.producer);
    writer.ended
}

/// The two ends of a ring with room for 1 to 4,096 pieces of at most 254 bytes.
pub fn post_ring<A: Allocator + Copy>(
    alloc: A,
    ring: usize,
) -> Result<(Poster<A>, Writer<A>), LinkFault>
    ensures size { IfOk result (λ r. IsRingSize ring) }
    ensures pair { IfOk result (λ r. ArePostPair r.0 r.1) }
    ensures fresh { IfOk result (λ r. IsFreshPost ring r.0 r.1) }
    ensures refusal { IfErr result (λ f. IsRingRefusal f ring) }
{
    if ring < 1 || ring > MAX_RING {
        return Err(LinkFault::Ring);
    }
    let Ok((producer, consumer)) = RingBuffer::<PostedBytes>::new(alloc, ring) else {
        return Err(LinkFault::NoMemory);
    };
    Ok((
        Poster::new(producer),
        Writer::new(consumer, Vec::new(alloc)),
    ))
}
