//! Both ends of the ring to the thread that matches, in one thread: made, and compared after the join.
ghost use Rattle.std.specs.Prelude.{◌≡◌, IfOk, IfErr};
ghost use Rattle.gate_link_stages.specs.Faults.{IsRingRefusal, IsRingSize};
ghost use Rattle.gate_link_stages.specs.Feeding.{given, taken, feed_ended, take_ended, SameFeeder, SameMatcher, AreFeedPair, IsFreshFeed, Agrees};

use crate::fault::LinkFault;
use crate::feed::{Fed, Feeder, Matcher};
use rtrb::RingBuffer;
use spread_rules_ids::limits::MAX_RING;
use std::alloc::Allocator;

/// Whether the end mark was taken. Then what was taken is what was given; else it is a beginning of it.
pub fn agree<A: Allocator>(feeder: &mut Feeder<A>, matcher: &mut Matcher<A>) -> bool
    requires { AreFeedPair feeder.old matcher.old }
    ensures ring { SameFeeder feeder.old feeder.new × SameMatcher matcher.old matcher.new }
    ensures same { (given feeder.new ≡ given feeder.old)
        × (taken matcher.new ≡ taken matcher.old) }
    ensures marks { (feed_ended feeder.new ≡ feed_ended feeder.old)
        × (take_ended matcher.new ≡ take_ended matcher.old) }
    ensures value { result ≡ take_ended matcher.old }
    ensures agree { Agrees result (feed_ended feeder.old)
        (given feeder.old) (taken matcher.old) }
{
    matcher.consumer.slots_beside(&mut feeder.producer);
    matcher.ended
}

/// The two ends of a ring with room for 1 to 4,096 entries.
pub fn feed_ring<A: Allocator + Copy>(
    alloc: A,
    ring: usize,
) -> Result<(Feeder<A>, Matcher<A>), LinkFault>
    ensures size { IfOk result (λ r. IsRingSize ring) }
    ensures pair { IfOk result (λ r. AreFeedPair r.0 r.1) }
    ensures fresh { IfOk result (λ r. IsFreshFeed ring r.0 r.1) }
    ensures refusal { IfErr result (λ f. IsRingRefusal f ring) }
{
    if ring < 1 || ring > MAX_RING {
        return Err(LinkFault::Ring);
    }
    let Ok((producer, consumer)) = RingBuffer::<Fed>::new(alloc, ring) else {
        return Err(LinkFault::NoMemory);
    };
    Ok((Feeder::new(producer), Matcher::new(consumer)))
}
