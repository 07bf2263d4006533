//! What the matching thread gives the sessions' writers: each entry's bytes before the next entry.
ghost use Rattle.std.specs.Prelude.{◌≡◌, ◌≤◌, ◌<◌, ◌++◌, ℕ, length, true, false};
ghost use Rattle.gate_link_stages.specs.Posting.{posted, post_ended, SamePoster};
ghost use Rattle.live_matching.specs.code.Posting.{HasMoved, NoneEnded, SamePosters, posted_at};

use apply_desk::ReportedEntries;
use gate_link::{Post, Poster};
use std::alloc::Allocator;
use std::sync::Wait;
use std::sync::atomic::{AtomicBool, Ordering};
use std::thread;

/// Entries applied in order and reported, and the ends of the rings by which each session's bytes go to its writer.
#[derive(Drop)]
pub struct PostedEntries<'r, A: Allocator + Copy> {
    pub reported: ReportedEntries<'r, A>,
    pub posters: Vec<Poster<A>, A>,
}

/// Gives all these bytes, or as many as it can before the flag is set: says whether it gave all.
fn post_all<R: Wait, A: Allocator>(
    rt: &R,
    stop: &AtomicBool,
    poster: &mut Poster<A>,
    bytes: &[u8],
) -> bool
    requires { post_ended poster.old ≡ false }
    ensures ring { SamePoster poster.old poster.new }
    ensures open { post_ended poster.new ≡ false }
    ensures whole { result ≡ true → posted poster.new ≡ posted poster.old ++ bytes.now }
{
    let mut done = 0usize;
    for _ in rt.forever() {
        if done == bytes.len() {
            return true;
        }
        if stop.load(Ordering::SeqCst) {
            return false;
        }
        match poster.post_many(&bytes[done..]) {
            Post::Posted(n) => done += n,
            Post::Full => thread::yield_now(),
            Post::Ended => return false,
        }
    }
    unreachable!()
}

/// Gives each session's bytes to its writer, and empties its list, until the flag is set: says whether it came to the
/// last one.
pub fn post_each<R: Wait, A: Allocator + Copy>(
    rt: &R,
    stop: &AtomicBool,
    reported: &mut ReportedEntries<'_, A>,
    posters: &mut [Poster<A>],
) -> bool
    requires count { length posters.old ≤ length reported.old.texts }
    requires open { NoneEnded posters.old }
    ensures rings { SamePosters posters.old posters.new }
    ensures open { NoneEnded posters.new }
    ensures applied { reported.new.applied ≡ reported.old.applied }
    ensures desk { reported.new.desk ≡ reported.old.desk }
    ensures count { length reported.new.texts ≡ length reported.old.texts }
    ensures moved { HasMoved result posters.old reported.old.texts posters.new reported.new.texts }
{
    // Most entries send something to one or two sessions.
    let mut s = reported.next_sent(0, posters.len());
    while s < posters.len() {
        let poster = &mut posters[s];
        if !post_all(rt, stop, poster, reported.bytes(s)) {
            return false;
        }
        reported.clear(s);
        s = reported.next_sent(s + 1, posters.len());
    }
    true
}

/// Pushes the end mark, unless the flag is set first: says whether it did.
fn end_one<R: Wait, A: Allocator>(rt: &R, stop: &AtomicBool, poster: &mut Poster<A>) -> bool
    ensures ring { SamePoster poster.old poster.new }
    ensures posted { posted poster.new ≡ posted poster.old }
{
    for _ in rt.forever() {
        match poster.end() {
            Post::Posted(_) | Post::Ended => return true,
            Post::Full => thread::yield_now(),
        }
        if stop.load(Ordering::SeqCst) {
            return false;
        }
    }
    unreachable!()
}

/// Pushes each end mark, until the flag is set.
pub fn end_each<R: Wait, A: Allocator>(rt: &R, stop: &AtomicBool, posters: &mut [Poster<A>])
    ensures rings { SamePosters posters.old posters.new }
    ensures posted { (s : ℕ) → posted_at posters.new s ≡ posted_at posters.old s }
{
    for s in 0..posters.len() {
        let poster = &mut posters[s];
        if !end_one(rt, stop, poster) {
            return;
        }
    }
}
