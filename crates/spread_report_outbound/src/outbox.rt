//! The outbound sessions and their lists, lent together.
ghost use Rattle.std.specs.Prelude.{◌≡◌, length};
ghost use Rattle.spread_rules_ids.specs.declared.limits.TheConstants.{SESSIONS};

use crate::sending::OutboundSessions;
use std::alloc::Allocator;

/// What messages are sent through: the outbound sessions, and the list of each to which its messages are appended.
/// The caller lends both.
#[derive(Drop)]
pub struct Outbox<'a, A: Allocator> {
    pub(crate) outbound: &'a mut OutboundSessions,
    pub(crate) lists: &'a mut [Vec<u8, A>],
    ghost counted: { length lists.now ≡ SESSIONS },
}

impl<'a, A: Allocator> Outbox<'a, A> {
    /// The outbox of these sessions and their lists.
    pub fn new(outbound: &'a mut OutboundSessions, lists: &'a mut [Vec<u8, A>]) -> Outbox<'a, A>
        requires { length lists.old ≡ SESSIONS }
        ensures outbound { result.outbound ≡ outbound.entry }
        ensures lists { result.lists ≡ lists.entry }
    {
        Outbox { outbound, lists }
    }
}
