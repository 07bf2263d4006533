//! Gateways in threads of their own.
ghost use Rattle.std.specs.Prelude.{ℕ, ◌<◌, length, slice_index_or};
ghost use Rattle.gate_link_sessions.specs.Gateways.{SameGateway};
ghost use Rattle.gate_link.specs.Links.{IsLinkOf, SameLink};
ghost use Rattle.gate_link_sessions.specs.declared.gateway.Gateway.{Gateway};
ghost use Rattle.std.specs.declared.alloc.Global.{Global};
ghost use denote.Param.Send.{IsSync};

use super::days::Act::{Ends, IsClosed, Steps, Turns};
use super::days::{Act, expect_acts_of_two};
use super::{FIRST_TRADE_SAYS, expect_journal, is_said};
use crate::expect::holds;
use gate_link::{Gateway, Sequencer, Settle, Step, Turn, link};
use spread_rules::Entry;
use std::alloc::{Allocator, Global};
use std::process::Abort;
use std::thread;
use std::thread::{Threads, join_mut};
use tests_shared::FIRST_TRADE;

/// Puts the day into a gateway, and sends its events as the ring gives room.
fn drive<A: Allocator>(gateway: &mut Gateway<A>)
    ensures { SameGateway gateway.old gateway.new }
{
    gateway.put(FIRST_TRADE);
    for _ in 0..10_000_000 {
        match gateway.end() {
            Step::Closed => return,
            Step::Full => thread::yield_now(),
            _ => {}
        }
    }
}

/// Takes a turn of each session, and says whether all are done.
fn turn_each<A: Allocator>(sequencer: &mut Sequencer<A>) -> bool
    ensures { SameLink sequencer.old sequencer.new }
{
    let mut done = true;
    for s in 0..sequencer.sessions() {
        match sequencer.turn(s as u8) {
            Turn::Done => {}
            Turn::Empty => {
                done = false;
                thread::yield_now();
            }
            _ => done = false,
        }
    }
    done
}

/// Takes turns until each session is done.
fn take_turns<A: Allocator>(sequencer: &mut Sequencer<A>)
    ensures { SameLink sequencer.old sequencer.new }
{
    for _ in 0..10_000_000 {
        if turn_each(sequencer) {
            return;
        }
    }
}

/// Two threads drive the gateways.
fn drive_all<R: Threads + Sync>(rt: &R, gateways: &mut [Gateway<Global>])
    ensures { (s : ℕ) (g : Gateway Global) → s < length gateways.old
        → SameGateway (slice_index_or gateways.old s g) (slice_index_or gateways.new s g) }
{
    thread::for_each_mut(rt, gateways, 2, &|_, gateway| drive(gateway));
}

/// Two threads drive the gateways, and a third one takes turns.
fn run<R: Threads + Sync>(
    rt: &R,
    gateways: &mut [Gateway<Global>],
    sequencer: &mut Sequencer<Global>,
)
    requires { IsLinkOf sequencer.old gateways.old }
    ensures { IsLinkOf sequencer.new gateways.new }
{
    join_mut(
        rt,
        &mut ||
            requires { IsSync R.row }
            ensures { (s : ℕ) (g : Gateway Global) → s < length gateways.entry.now → SameGateway (slice_index_or gateways.entry.now s g) (slice_index_or gateways.exit.now s g) }
        { drive_all(rt, gateways) },
        &mut ||
            ensures { SameLink sequencer.entry.now sequencer.exit.now }
        { take_turns(sequencer) },
    );
}

/// The journal has the whole day of this session, once.
fn expect_session(rt: &impl Abort, journal: &[Entry], session: u8) {
    let mut count = 0;
    for entry in journal {
        if entry.session == session {
            let says = FIRST_TRADE_SAYS.get(count).expect(rt, "four events");
            holds(rt, is_said(&entry.event, says));
            count += 1;
        }
    }
    holds(rt, count == 4);
}

/// Two sessions over rings of one event: the journal has the whole day of each.
#[test]
fn two_threads(rt: HostRuntime) {
    let (mut gateways, mut sequencer) = link(rt.alloc(), 2, 1, 8).expect(&rt, "a link");
    run(&rt, gateways.as_mut_slice(), &mut sequencer);
    holds(
        &rt,
        sequencer.settle(gateways.as_mut_slice()) == Settle::Settled,
    );
    expect_session(&rt, sequencer.journal(), 0);
    expect_session(&rt, sequencer.journal(), 1);
}

/// Half of the day is put and sent in another thread, the rest here.
fn first_half<A: Allocator>(gateway: Gateway<A>) -> Gateway<A> {
    let mut gateway = gateway;
    gateway.put(&FIRST_TRADE[..250]);
    for _ in 0..4 {
        gateway.step();
    }
    gateway
}

/// What follows where the rest of the day is put: the ring has room for two events.
static SECOND_HALF: &[Act] = &[
    Steps(Step::Full),
    Turns(Turn::Took),
    Ends(Step::Sent),
    Turns(Turn::Took),
    Ends(Step::Sent),
    Turns(Turn::Took),
    Ends(Step::Closed),
    Turns(Turn::Took),
    IsClosed(true),
    Turns(Turn::Done),
];

/// The rest of the day is put and sent, and the journal has the whole of it.
fn second_half<A: Allocator>(
    rt: &impl Abort,
    gateway: &mut Gateway<A>,
    sequencer: &mut Sequencer<A>,
) {
    holds(rt, gateway.put(&FIRST_TRADE[250..]) == 150);
    expect_acts_of_two(rt, gateway, sequencer, SECOND_HALF);
    expect_journal(rt, sequencer.journal(), FIRST_TRADE_SAYS.as_slice());
}

#[test]
fn a_gateway_that_moves(rt: HostRuntime) {
    let (mut gateways, mut sequencer) = link(rt.alloc(), 1, 2, 10).expect(&rt, "a link");
    let first = gateways.pop().expect(&rt, "a gateway");
    let (mut gateway, _) = thread::join(&rt, move || first_half(first), || 0u8);
    second_half(&rt, &mut gateway, &mut sequencer);
}
