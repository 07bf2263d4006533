//! Memory that is let go.
use crate::expect::holds;
use spread_rules_ends::release;
use std::process::Abort;
use tests_shared::Refusing;

/// The first request is for the list, the second for the smaller block that its one element takes.
#[test]
fn released_lists(rt: HostRuntime) {
    for refused in 2..4u64 {
        let heap = Refusing::new(rt.alloc(), refused);
        let list = Vec::from_slice(&heap, b"three").expect(&rt, "memory");
        release(list);
        holds(&rt, heap.has_refused() == (refused == 2));
    }
}
