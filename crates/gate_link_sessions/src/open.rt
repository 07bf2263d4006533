//! Makes the rings of a day's sessions.
ghost use Rattle.std.specs.Prelude.{◌≡◌, ◌≤◌, ℕ, [], IfOk, vec_len};
ghost use Rattle.spread_rules_ids.specs.declared.limits.TheConstants.{SESSIONS};
ghost use Rattle.gate_link_sessions.specs.Rows.{row};
ghost use Rattle.gate_link_sessions.specs.Inboxes.{taken, ArePairs};
ghost use Rattle.gate_link_sessions.specs.Fresh.{AreFresh};

use crate::gateway::Gateway;
use crate::inbox::Inbox;
use rtrb::RingBuffer;
use spread_rules::Entry;
use std::alloc::{AllocError, Allocator};

/// The gateways of so many sessions in their order, over rings of so many events, and the inboxes at the rings' other ends.
pub fn rings<A: Allocator + Copy>(
    alloc: A,
    sessions: usize,
    ring: usize,
) -> Result<(Vec<Gateway<A>, A>, Vec<Inbox<A>, A>), AllocError>
    requires { sessions ≤ SESSIONS }
    ensures len { IfOk result (λ r. (vec_len r.0 ≡ sessions) × (vec_len r.1 ≡ sessions)) }
    ensures pairs { IfOk result (λ r. ArePairs r.1.items r.0.items) }
    ensures fresh { IfOk result (λ r. AreFresh ring r.0.items) }
    ensures idle { IfOk result (λ r. (s : ℕ) → row taken r.1.items s ≡ []) }
{
    let mut gateways = Vec::with_capacity(alloc, sessions)?;
    let mut inboxes = Vec::with_capacity(alloc, sessions)?;
    for s in 0..sessions {
        let (producer, consumer) = RingBuffer::<Entry>::new(alloc, ring)?;
        gateways.push_reserved(Gateway::new(s as u8, producer));
        inboxes.push_reserved(Inbox::new(consumer));
    }
    Ok((gateways, inboxes))
}
