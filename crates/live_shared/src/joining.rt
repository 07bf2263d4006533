//! The threads of a list are joined.
ghost use Rattle.std.specs.Prelude.{◌≡◌, ◌≤◌, vec_len, vec_capacity};
ghost use Rattle.live_shared.specs.code.Joining.{AreJoined};

use std::alloc::Allocator;
use std::thread::{Promise, PromisedHandle, Threads};

/// Joins each thread, into room that was had before they ran: memory may be short by then. What each gives back keeps what
/// its handle promised.
pub fn join_each<R: Threads, T: Drop, P: Promise<T>, A: Allocator>(
    rt: &R,
    handles: Vec<PromisedHandle<T, P>, A>,
    room: Vec<T, A>,
) -> Vec<T, A>
    requires { (vec_len room ≡ 0) × (vec_len handles ≤ vec_capacity room) }
    ensures len { vec_len result ≡ vec_len handles }
    ensures kept { AreJoined P.Promise handles.items result.items }
{
    let mut joined = room;
    for handle in handles {
        joined.push_reserved(handle.join(rt));
    }
    joined
}
