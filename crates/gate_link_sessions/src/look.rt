//! Over the rings of all sessions: what the gateways have sent is seen.
ghost use Rattle.gate_link_sessions.specs.Inboxes.{AllLooked, ArePairs};

use crate::gateway::Gateway;
use crate::inbox::Inbox;
use std::alloc::Allocator;

/// Each inbox in turn looks beside the gateway of its ring.
pub fn look_all<A: Allocator>(inboxes: &mut [Inbox<A>], gateways: &mut [Gateway<A>])
    requires { ArePairs inboxes.old gateways.old }
    ensures { AllLooked inboxes.old gateways.old inboxes.new gateways.new }
{
    for s in 0..inboxes.len() {
        let inbox = &mut inboxes[s];
        inbox.look(&mut gateways[s]);
    }
}
