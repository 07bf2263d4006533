//! One session's thread: it judges the session's stream and sends its events.
ghost use Rattle.std.specs.Prelude.{◌≡◌, ◌≤◌, ℕ, List, length, drop, true, IfSome};
ghost use Rattle.gate_link_sessions.specs.declared.gateway.Gateway.{Gateway};
ghost use Rattle.gate_link_sessions.specs.declared.gateway.Step.TheVariants.{Full, Closed};
ghost use Rattle.gate_link_sessions.specs.declared.gateway.TheConstants.{MAX_SLICE};
ghost use Rattle.gate_link_sessions.specs.Gateways.{is_over};
ghost use Rattle.live_sessions.specs.code.Workers.{IsUnused, HasSent, SameEvents, IsReady, AreReady};

use crate::workers::WorkerHandle;
use fix_session_judging::Ahead;
use gate_link::{Burst, Gateway, MAX_SLICE, Step};
use live_shared::{Gate, Shared, found, rest};
use spread_rules_ends::release;
use std::alloc::Allocator;
use std::snapshot::Snapshot;
use std::sync::Wait;
use std::sync::atomic::{AtomicBool, Ordering};
use std::thread;
use std::thread::{Promise, Scope, Threads};

/// What a worker's thread gives back: its own gateway, with what it sent of its own stream.
#[derive(Drop)]
pub struct WorkerPromise<A: Allocator> {
    pub gateway: Snapshot<Gateway<A>>,
    pub stream: Snapshot<Vec<u8, A>>,
}

impl<A: Allocator> Promise<Gateway<A>> for WorkerPromise<A> {
    ghost kept_by = { λ p g. HasSent p.stream.value.items p.gateway.value g };
}

/// Puts the stream into the gateway and sends its events, so many messages at once, until the gateway is closed or the
/// flag is set.
pub fn run_gateway<R: Wait, G: Gate, A: Allocator>(
    rt: &R,
    gate: &G,
    stop: &AtomicBool,
    most: u32,
    gateway: Gateway<A>,
    stream: &[u8],
) -> Gateway<A>
    requires unused { IsUnused gateway }
    requires most { most ≤ MAX_SLICE }
    ensures { HasSent stream.now gateway result }
{
    let mut gateway = gateway;
    send_stream(rt, gate, stop, most, &mut gateway, stream);
    gateway
}

/// `run_gateway` over a borrowed gateway: the owner stays outside of the loop.
fn send_stream<R: Wait, G: Gate, A: Allocator>(
    rt: &R,
    gate: &G,
    stop: &AtomicBool,
    most: u32,
    gateway: &mut Gateway<A>,
    stream: &[u8],
)
    requires unused { IsUnused gateway.old }
    requires most { most ≤ MAX_SLICE }
    ensures sent { HasSent stream.now gateway.old gateway.new }
{
    let mut put = 0usize;
    let mut message = 0u32;
    let mut judged = None;
    let mut looks = 0u32;
    for _ in rt.forever() {
        if stop.load(Ordering::SeqCst) {
            return;
        }
        judged = see(gate, gateway, most, message, judged);
        match step_or_end(gateway, most, &judged, &stream[put..]) {
            Step::Sent | Step::Skipped => {
                message = message.saturating_add(judged.as_ref().map_or(0, count));
                judged = None;
                looks = found(looks);
                // The thread that matches may wait for this processor, and the day waits for that thread.
                thread::yield_now();
            }
            Step::Need => {
                put = put_bytes(gateway, stream, put);
                judged = None;
            }
            Step::Full => looks = rest(rt, looks),
            Step::Closed => return,
        }
    }
    unreachable!()
}

/// Puts what it can of the stream from here on, and says how far it has come.
fn put_bytes<A: Allocator>(gateway: &mut Gateway<A>, stream: &[u8], put: usize) -> usize
    requires { put ≤ length stream.now }
    ensures within { result ≤ length stream.now }
    ensures kept { SameEvents gateway.old (drop put stream.now) gateway.new
        (drop result stream.now) }
{
    put + gateway.put(&stream[put..])
}

/// The messages that the next step is made on: those that were judged before, or else the next that are held, at most
/// so many, which are judged and each named to the gate; none, where none stands.
fn see<G: Gate, A: Allocator>(
    gate: &G,
    gateway: &mut Gateway<A>,
    most: u32,
    message: u32,
    judged: Option<Ahead>,
) -> Option<Ahead>
    requires most { most ≤ MAX_SLICE }
    requires ready { AreReady most gateway.old judged }
    ensures ready { AreReady most gateway.new result }
    ensures kept { (rest : List ℕ) → SameEvents gateway.old rest gateway.new rest }
{
    if judged.is_some() {
        return judged;
    }
    let ahead = gateway.judge_many(most);
    if ahead.messages == 0 {
        return None;
    }
    call_gate(gate, gateway.session(), message, count(&ahead));
    Some(ahead)
}

/// How many messages were judged, or the greatest u32 where they are more.
fn count(ahead: &Ahead) -> u32 {
    u32::try_from(ahead.messages).unwrap_or(u32::MAX)
}

/// Names so many of a session's messages to the gate, from this one on.
fn call_gate<G: Gate>(gate: &G, session: u8, message: u32, count: u32) {
    for k in 0..count {
        gate.before(session, message.saturating_add(k));
    }
}

/// Makes a step on the messages that were judged, or where there are none on what is held, which is the end where
/// nothing is left of the stream.
fn step_or_end<A: Allocator>(
    gateway: &mut Gateway<A>,
    most: u32,
    judged: &Option<Ahead>,
    rest: &[u8],
) -> Step
    requires ready { AreReady most gateway.old judged.now }
    ensures kept { SameEvents gateway.old rest.now gateway.new rest.now }
    ensures closed { result ≡ Closed → is_over gateway.new ≡ true }
    ensures ready { result ≡ Full → AreReady most gateway.new judged.now }
{
    if let Some(ahead) = judged {
        return step_together(gateway, most, ahead);
    }
    if rest.is_empty() {
        return gateway.end();
    }
    gateway.step()
}

/// Makes a step on the messages that were judged.
fn step_together<A: Allocator>(gateway: &mut Gateway<A>, most: u32, ahead: &Ahead) -> Step
    requires ready { IsReady most gateway.old ahead.now }
    ensures kept { (rest : List ℕ) → SameEvents gateway.old rest gateway.new rest }
    ensures closed { result ≡ Closed → is_over gateway.new ≡ true }
    ensures ready { result ≡ Full → IsReady most gateway.new ahead.now }
{
    match gateway.send_judged(most, ahead) {
        Burst::Sent(_) => Step::Sent,
        Burst::Skipped => Step::Skipped,
        Burst::Need => Step::Need,
        Burst::Full => Step::Full,
        Burst::Closed => Step::Closed,
    }
}

/// How many messages a session steps on together, where the gate and the ring have these bounds.
fn slice_of(asked: u32, ring: usize) -> u32
    ensures { (1 ≤ result) × (result ≤ MAX_SLICE) }
{
    ring.min(MAX_SLICE).min(asked as usize).max(1) as u32
}

/// A thread of the scope for one session. The stream goes where its events were sent.
pub fn start<'r: 's, 's, E, R: Wait + Threads + Sync, G: Gate, A: Allocator + Send + 's>(
    scope: &Scope<'s, E>,
    shared: &Shared<'r, 's, R, G>,
    gateway: Gateway<A>,
    stream: Vec<u8, A>,
) -> Option<WorkerHandle<A>>
    requires { IsUnused gateway }
    ensures { IfSome result
        (λ h. (h.promise.gateway.value ≡ gateway) × (h.promise.stream.value ≡ stream)) }
{
    let promise = WorkerPromise {
        gateway: Snapshot::of(&gateway),
        stream: Snapshot::of(&stream),
    };
    let Shared {
        rt,
        gate,
        stop,
        ring,
    } = *shared;
    let most = slice_of(gate.most(), ring);
    let started = scope.spawn_with(
        promise,
        move || -> Gateway<A>
            requires unused { IsUnused gateway }
            requires most { most ≤ MAX_SLICE }
            ensures { HasSent stream.items gateway result }
        {
            let gateway = run_gateway(rt, gate, stop, most, gateway, &stream);
            release(stream);
            gateway
        },
    );
    started.ok()
}
