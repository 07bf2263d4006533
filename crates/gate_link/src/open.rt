//! Makes the gateways and the sequencer of a day, and refuses what is out of range.
ghost use Rattle.std.specs.Prelude.{◌≡◌, ◌≤◌, ◌<◌, [], IfOk, IfErr, vec_len};
ghost use Rattle.gate_link.specs.Links.{IsLinkOf, journal_of, room_of, session_count};
ghost use Rattle.gate_link.specs.Opening.{IsRefusal};
ghost use Rattle.gate_link_sessions.specs.Fresh.{AreFresh};
ghost use Rattle.gate_link_stages.specs.Faults.{Between};

use crate::sequencer::Sequencer;
use gate_link_sessions::{Gateway, rings};
use gate_link_stages::LinkFault;
use spread_rules_ids::limits::{MAX_JOURNAL_ENTRIES, MAX_RING, SESSIONS};
use std::alloc::Allocator;

/// The gateways of 1 to 16 sessions in their order, over rings of 1 to 4,096 events, and their sequencer, whose journal
/// has room for at most 1,000,000 entries, all of it reserved here. The faults are judged in the order 1, 2, 4, 3: no
/// memory is asked for before all sizes were looked at.
pub fn link<A: Allocator + Copy>(
    alloc: A,
    sessions: usize,
    ring: usize,
    journal: usize,
) -> Result<(Vec<Gateway<A>, A>, Sequencer<A>), LinkFault>
    ensures ranges { IfOk result (λ r. Between 1 SESSIONS sessions × Between 1 MAX_RING ring
        × (journal ≤ MAX_JOURNAL_ENTRIES)) }
    ensures pairs { IfOk result (λ r. IsLinkOf r.1 r.0.items) }
    ensures gateways { IfOk result (λ r. (vec_len r.0 ≡ sessions) × AreFresh ring r.0.items) }
    ensures sequencer { IfOk result
        (λ r. (journal_of r.1 ≡ []) × (room_of r.1 ≡ journal) × (session_count r.1 ≡ sessions)) }
    ensures refusal { IfErr result (λ f. IsRefusal f sessions ring journal) }
{
    if sessions < 1 || sessions > SESSIONS {
        return Err(LinkFault::Sessions);
    }
    if ring < 1 || ring > MAX_RING {
        return Err(LinkFault::Ring);
    }
    if journal > MAX_JOURNAL_ENTRIES {
        return Err(LinkFault::Journal);
    }
    let Ok((gateways, inboxes)) = rings(alloc, sessions, ring) else {
        return Err(LinkFault::NoMemory);
    };
    let Ok(entries) = Vec::with_capacity(alloc, journal) else {
        return Err(LinkFault::NoMemory);
    };
    Ok((gateways, Sequencer::new(inboxes, entries, journal)))
}
