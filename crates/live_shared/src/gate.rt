//! What the threads of all sessions share, and the gate that sees what they do.
use gate_link_sessions::MAX_SLICE;
use std::sync::atomic::AtomicBool;

/// Sees each message of each session before it is judged, each entry after it was matched, and each piece of a
/// session's outgoing bytes after it was taken, and may hold the thread that it is called in.
pub trait Gate: Sync {
    /// Called once before a session first steps on a message. Messages count from 0, and stay at the greatest u32. Of
    /// messages that are stepped on together each is named before the first of them is stepped on.
    fn before(&self, session: u8, message: u32);

    /// How many messages a session steps on together: 1 to 64, and no more than its ring takes. What lies beyond counts as
    /// the bound.
    fn most(&self) -> u32 {
        MAX_SLICE as u32
    }

    /// Called by the matching thread after the entry of that place was applied, and all that it sends was given to the
    /// writers.
    fn matched(&self, _place: u64) {}

    /// Called by the thread of a session's writer after it took more bytes: so many it has in all.
    fn written(&self, _session: u8, _total: u64) {}
}

/// What the threads of all sessions share.
#[derive(Drop)]
pub struct Shared<'r, 's, R, G> {
    pub rt: &'r R,
    pub gate: &'r G,
    pub stop: &'s AtomicBool,
    /// How many items each ring takes.
    pub ring: usize,
}
