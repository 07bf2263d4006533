//! Links that are refused, and memory refused.
use crate::expect::holds;
use gate_link::{LinkFault, link};
use tests_shared::Refusing;

/// The number of sessions, the sizes of a ring and of the journal, and the fault's number.
const REFUSED: &[(usize, usize, usize, u8)] = &[
    (0, 1, 1, 1),
    (17, 0, 1, 1),
    (2, 0, 2_000_000, 2),
    (2, 4097, 1, 2),
    (2, 1, 1_000_001, 4),
];

#[test]
fn refused_links(rt: HostRuntime) {
    for (sessions, ring, journal, number) in REFUSED {
        let fault = link(rt.alloc(), *sessions, *ring, *journal).err();
        holds(&rt, fault.expect(&rt, "a fault").number() == *number);
    }
    holds(&rt, LinkFault::NoMemory.number() == 3);
}

/// NoMemory comes where a request was refused, and only there.
#[test]
fn links_with_memory_refused(rt: HostRuntime) {
    for number in 1..100u64 {
        let heap = Refusing::new(rt.alloc(), number);
        let fault = link(&heap, 3, 4, 10).err();
        holds(
            &rt,
            fault == heap.has_refused().then_some(LinkFault::NoMemory),
        );
        if fault.is_none() {
            holds(&rt, number > 3);
            return;
        }
    }
    holds(&rt, false);
}
