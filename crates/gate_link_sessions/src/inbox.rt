//! The receiving end of a session.
ghost use Rattle.std.specs.Prelude.{◌≡◌, ◌<◌, ◌≤◌, ◌++◌, [], ◌∷◌, length, take, IfSome, IfNone};
ghost use Rattle.std.specs.List.{list_any};
ghost use Rattle.rtrb.specs.Ring.{received};
ghost use Rattle.spread_rules.specs.Journal.{is_close};
ghost use Rattle.gate_link_sessions.specs.Rows.{entry_events};

use crate::gateway::Gateway;
use rtrb::Consumer;
use spread_rules::{Entry, Event};
use std::alloc::Allocator;

/// The sequencer's end of one session: the consumer end of its ring, and whether its close was taken.
#[derive(Drop)]
pub struct Inbox<A: Allocator> {
    consumer: Consumer<Entry, A>,
    done: bool,
    // It is done exactly where its close was taken.
    ghost close_taken: { done ≡ list_any is_close (entry_events (received consumer)) },
}

/// Whether one of the entries is a close.
fn has_close(entries: &[Entry]) -> bool
    ensures { result ≡ list_any is_close (entry_events entries.now) }
{
    for entry in entries {
        if let Event::Close { .. } = entry.event {
            return true;
        }
    }
    false
}

impl<A: Allocator> Inbox<A> {
    ghost use Rattle.rtrb.specs.Ring.{sent, known_items, IsPair};
    ghost use Rattle.gate_link_sessions.specs.Gateways.{events_sent, session_state, bytes_held, SameGateway};
    ghost use Rattle.gate_link_sessions.specs.Inboxes.{taken, known, total, SameInbox, IsInboxOf, LookedAt};

    pub(crate) fn new(consumer: Consumer<Entry, A>) -> Inbox<A>
        requires { received consumer ≡ [] }
        ensures { result.consumer ≡ consumer }
    {
        Inbox {
            consumer,
            done: false,
        }
    }

    /// Whether its close was taken.
    pub fn is_done(&self) -> bool
        ensures { result ≡ list_any is_close (taken self.now) }
    {
        self.done
    }

    /// Takes the next event, if one is seen.
    pub fn take(&mut self) -> Option<Event>
        ensures inbox { SameInbox self.old self.new }
        ensures some { IfSome result (λ e. taken self.new ≡ taken self.old ++ e ∷ []) }
        ensures none { IfNone result (taken self.new ≡ taken self.old) }
    {
        let Ok(entry) = self.consumer.pop() else {
            return None;
        };
        if let Event::Close { .. } = entry.event {
            self.done = true;
        }
        Some(entry.event)
    }

    /// Takes the next events into the first of the entries, as many as are seen and have a place there, and says how
    /// many.
    pub fn take_many(&mut self, entries: &mut [Entry]) -> usize
        ensures inbox { SameInbox self.old self.new }
        ensures size { length entries.new ≡ length entries.old }
        ensures few { result ≤ length entries.new }
        ensures taken { taken self.new
            ≡ taken self.old ++ entry_events (take result entries.new) }
    {
        let count = self.consumer.pop_partial_slice(entries);
        if has_close(&entries[..count]) {
            self.done = true;
        }
        count
    }

    /// Takes the next event, which was seen.
    pub fn take_known(&mut self) -> Event
        requires { 0 < length (known self.old) }
        ensures inbox { SameInbox self.old self.new }
        ensures taken { taken self.new ≡ taken self.old ++ result ∷ [] }
        ensures known { known self.old ≡ result ∷ known self.new }
    {
        let entry = self.consumer.pop_known();
        if let Event::Close { .. } = entry.event {
            self.done = true;
        }
        entry.event
    }

    /// Looks beside the gateway of this ring: what was taken and what is seen are what it sent.
    pub fn look(&mut self, gateway: &mut Gateway<A>)
        requires { IsInboxOf self.old gateway.old }
        ensures { LookedAt self.old gateway.old self.new gateway.new }
    {
        self.consumer.slots_beside(&mut gateway.producer);
    }

    /// How many events it has seen in the ring, which were not taken.
    pub fn known_count(&self) -> usize
        ensures { result ≡ length (known self.now) }
    {
        self.consumer.cached_slots()
    }
}
