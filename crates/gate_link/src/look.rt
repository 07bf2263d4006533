//! Over all gateways of a link: the first that is open.
ghost use Rattle.std.specs.Prelude.{◌≤◌, length, IfSome, IfNone};
ghost use Rattle.spread_rules_ids.specs.declared.limits.TheConstants.{SESSIONS};
ghost use Rattle.gate_link.specs.Links.{AllClosed, IsFirstOpen};

use gate_link_sessions::Gateway;
use std::alloc::Allocator;

/// The first gateway that is not closed.
pub(crate) fn first_open<A: Allocator>(gateways: &[Gateway<A>]) -> Option<u8>
    requires { length gateways.now ≤ SESSIONS }
    ensures some { IfSome result (λ s. IsFirstOpen s gateways.now) }
    ensures none { IfNone result (AllClosed gateways.now) }
{
    for (s, gateway) in gateways.iter().enumerate() {
        if !gateway.is_closed() {
            return Some(s as u8);
        }
    }
    None
}
