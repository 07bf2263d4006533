//! The matching thread: what it promises, and its start.
ghost use Rattle.std.specs.Prelude.{◌≡◌, IfSome};
ghost use Rattle.live_matching.specs.code.Matching.{HasMatched};
ghost use Rattle.live_matching.specs.code.Posting.{IsUnfed};

use crate::posting::PostedEntries;
use crate::turns::{Matched, match_all};
use gate_link_stages::Matcher;
use live_shared::Gate;
use std::alloc::Allocator;
use std::snapshot::Snapshot;
use std::sync::Wait;
use std::sync::atomic::AtomicBool;
use std::thread;
use std::thread::{Promise, PromisedHandle, Scope, Threads};

/// What it promises: its own ends of the rings, and what it made of the entries that it took.
#[derive(Drop)]
pub struct MatchPromise<'r, A: Allocator + Copy> {
    pub matcher: Snapshot<Matcher<A>>,
    pub posted: Snapshot<PostedEntries<'r, A>>,
}

impl<'r, A: Allocator + Copy> Promise<Matched<'r, A>> for MatchPromise<'r, A> {
    ghost kept_by = { λ p r. HasMatched p.matcher.value p.posted.value r };
}

/// The matching thread of the scope.
pub fn start_matching<'s, E, R: Wait + Threads + Sync, G: Gate, A: Allocator + Copy + Send + 's>(
    scope: &Scope<'s, E>,
    rt: &'s R,
    gate: &'s G,
    stop: &'s AtomicBool,
    matcher: Matcher<A>,
    posted: PostedEntries<'s, A>,
) -> Option<PromisedHandle<Matched<'s, A>, MatchPromise<'s, A>>>
    requires { IsUnfed matcher posted }
    ensures { IfSome result (λ h. (h.promise.matcher.value ≡ matcher)
        × (h.promise.posted.value ≡ posted.entry)) }
{
    let promise = MatchPromise {
        matcher: Snapshot::of(&matcher),
        posted: Snapshot::of(&posted),
    };
    let started = scope.spawn_with(
        promise,
        move || -> Matched<A>
            requires { IsUnfed matcher posted }
            ensures { HasMatched matcher posted.entry result }
        {
            let mut matcher = matcher;
            let mut posted = posted;
            let (worked, end) = match_all(rt, gate, stop, &mut matcher, &mut posted);
            Matched {
                matcher,
                posted,
                worked,
                end,
            }
        },
    );
    started.ok()
}
