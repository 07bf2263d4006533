//! What a day in threads is made of before any thread is started.
use crate::expect::holds;
use crate::rules::three_months;
use apply_market::ApplyFault;
use live_day::{Caps, DaySettings, ThreadsFault, of_apply, stages_of};
use tests_shared::stamp;

#[test]
fn stages_of_two_sessions(rt: HostRuntime) {
    let rulebook = three_months(&rt);
    let rules = DaySettings {
        rulebook: &rulebook,
        stamp: stamp(),
    };
    let caps = Caps {
        ring: 4,
        journal: 10,
    };
    let stages = stages_of(rt.alloc(), &rules, 2, caps);
    let stages = stages.ok().expect(&rt, "stages");
    holds(&rt, stages.gateways.len() == 2 && stages.writers.len() == 2);
    holds(&rt, stages.room == 10);
}

#[test]
fn faults_of_applying(rt: HostRuntime) {
    let no_memory = of_apply(ApplyFault::NoMemory(3));
    holds(&rt, no_memory == ThreadsFault::NoMemory(3));
    let spent = of_apply(ApplyFault::NumbersSpent(3));
    holds(&rt, spent == ThreadsFault::NumbersSpent(3));
}
