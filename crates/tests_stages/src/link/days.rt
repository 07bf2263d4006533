//! Days of one session, as what is done with its gateway and the sequencer.
ghost use Rattle.gate_link_sessions.specs.Gateways.{SameGateway};
ghost use Rattle.gate_link.specs.Links.{IsLinkOf, SameLink};

use super::{Says, expect_journal};
use crate::expect::{holds, holds_for};
use gate_link::{Burst, Gateway, Sequencer, Settle, Step, Takes, Turn, link};
use std::alloc::{Allocator, Global};
use std::process::Abort;

/// What is done, and what the gateway or the sequencer answers.
pub enum Act {
    /// Of these bytes so many are taken.
    Put(&'static [u8], usize),
    /// 8,192 letters x are put, and all are taken.
    PutLetters,
    /// Whether a message stands.
    Stands(bool),
    Steps(Step),
    Ends(Step),
    /// Of so many messages at most, this many stand.
    Standing(u32, u32),
    /// Over so many messages at most.
    StepsOver(u32, Burst),
    /// Of so many messages at most this many are judged, and then sent.
    JudgesAndSends(u32, usize, Burst),
    IsClosed(bool),
    Turns(Turn),
    /// For so many events at most.
    TurnsFor(u32, Takes),
    Settles(Settle),
}

/// A day over a ring and a journal of these sizes: what is done, and what the journal has at last.
pub struct Day {
    pub name: &'static str,
    pub ring: usize,
    pub journal: usize,
    pub acts: &'static [Act],
    pub says: &'static [Says],
}

fn takes_letters<A: Allocator>(gateway: &mut Gateway<A>) -> bool
    ensures { SameGateway gateway.old gateway.new }
{
    gateway.put(&[b'x'; 8192]) == 8192
}

fn steps_over_as<A: Allocator>(gateway: &mut Gateway<A>, frames: u32, want: Burst) -> bool
    ensures { SameGateway gateway.old gateway.new }
{
    1 <= frames && frames <= 64 && gateway.step_many(frames) == want
}

fn is_judged_and_sent<A: Allocator>(
    gateway: &mut Gateway<A>,
    frames: u32,
    messages: usize,
    want: Burst,
) -> bool
    ensures { SameGateway gateway.old gateway.new }
{
    if frames > 64 {
        return false;
    }
    let ahead = gateway.judge_many(frames);
    0 < ahead.messages && ahead.messages == messages && gateway.send_judged(frames, &ahead) == want
}

/// Whether an act of a gateway comes to what it should.
fn gateway_act_holds<A: Allocator>(gateway: &mut Gateway<A>, act: &Act) -> bool
    ensures { SameGateway gateway.old gateway.new }
{
    match act {
        Act::Put(bytes, taken) => gateway.put(bytes) == *taken,
        Act::PutLetters => takes_letters(gateway),
        Act::Stands(stands) => gateway.stands() == *stands,
        Act::Steps(step) => gateway.step() == *step,
        Act::Ends(step) => gateway.end() == *step,
        Act::Standing(most, count) => gateway.standing(*most) == *count,
        Act::StepsOver(frames, burst) => steps_over_as(gateway, *frames, *burst),
        Act::JudgesAndSends(frames, messages, burst) => {
            is_judged_and_sent(gateway, *frames, *messages, *burst)
        }
        Act::IsClosed(is_closed) => gateway.is_closed() == *is_closed,
        _ => false,
    }
}

/// Whether a turn of the one session comes to that.
fn turns_as<A: Allocator>(sequencer: &mut Sequencer<A>, want: Turn) -> bool
    ensures { SameLink sequencer.old sequencer.new }
{
    sequencer.sessions() == 1 && sequencer.turn(0) == want
}

fn turns_for_as<A: Allocator>(sequencer: &mut Sequencer<A>, most: u32, want: Takes) -> bool
    ensures { SameLink sequencer.old sequencer.new }
{
    sequencer.sessions() == 1 && 1 <= most && most <= 64 && sequencer.turn_many(0, most) == want
}

/// Whether any act but Settles comes to what it should.
fn act_of_two_holds<A: Allocator>(
    gateway: &mut Gateway<A>,
    sequencer: &mut Sequencer<A>,
    act: &Act,
) -> bool
    ensures gate { SameGateway gateway.old gateway.new }
    ensures link { SameLink sequencer.old sequencer.new }
{
    match act {
        Act::Turns(turn) => turns_as(sequencer, *turn),
        Act::TurnsFor(most, takes) => turns_for_as(sequencer, *most, *takes),
        _ => gateway_act_holds(gateway, act),
    }
}

/// Any acts but Settles.
pub fn expect_acts_of_two<A: Allocator>(
    rt: &impl Abort,
    gateway: &mut Gateway<A>,
    sequencer: &mut Sequencer<A>,
    acts: &[Act],
) {
    for act in acts {
        holds(rt, act_of_two_holds(gateway, sequencer, act));
    }
}

fn act_holds<A: Allocator>(
    gateways: &mut [Gateway<A>],
    sequencer: &mut Sequencer<A>,
    act: &Act,
) -> bool
    requires { IsLinkOf sequencer.old gateways.old }
    ensures { IsLinkOf sequencer.new gateways.new }
{
    if let Act::Settles(settle) = act {
        return sequencer.settle(gateways) == *settle;
    }
    gateways.len() == 1 && act_of_two_holds(&mut gateways[0], sequencer, act)
}

fn expect_acts<A: Allocator>(
    rt: &impl Abort,
    gateways: &mut [Gateway<A>],
    sequencer: &mut Sequencer<A>,
    day: &Day,
)
    requires { IsLinkOf sequencer.old gateways.old }
{
    for act in day.acts {
        let held = act_holds(gateways, sequencer, act);
        holds_for(rt, held, day.name);
    }
    holds(rt, gateways.len() == 1);
    holds(rt, gateways[0].session() == 0);
    expect_journal(rt, sequencer.journal(), day.says);
}

fn expect_last_journal<A: Allocator>(rt: &impl Abort, sequencer: Sequencer<A>, want: &[Says]) {
    let journal = sequencer.into_journal();
    expect_journal(rt, &journal, want);
}

pub fn expect_day(rt: &impl Abort, alloc: Global, day: &Day) {
    let (mut gateways, mut sequencer) = link(alloc, 1, day.ring, day.journal).expect(rt, "a link");
    expect_acts(rt, gateways.as_mut_slice(), &mut sequencer, day);
    expect_last_journal(rt, sequencer, day.says);
}
