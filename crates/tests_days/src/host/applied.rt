//! The entries of journals applied one by one, and the orders that rest behind them.
ghost use Rattle.std.specs.Prelude.{All};
ghost use Rattle.spread_rules.specs.Journal.{FitsEntry};

use super::check::DIRECT_BEFORE_IMPLIED;
use super::read_again;
use super::reported::first_fills;
use crate::expect::holds;
use crate::rules::three_months;
use apply_desk::apply_journal;
use apply_desk::laws::{numbers_spent, one_by_one};
use apply_market::{MatchedJournal, apply_entries, fills_of_journal};
use spread_books::Book;
use spread_rules::{Entry, Fill, Rulebook};
use std::alloc::Global;
use std::process::Abort;
use tests_shared::{FIRST_TRADE_JOURNAL, stamp};

/// A journal, and what comes of it.
struct Applied {
    journal: &'static [u8],
    /// How many fills each entry makes.
    made: &'static [usize],
    fills: usize,
    /// Each order that rests, in order of place: its place, and how much of it is left.
    resting: &'static [(u64, u32)],
}

static FIRST_TRADE: Applied = Applied {
    journal: FIRST_TRADE_JOURNAL,
    made: &[0, 0, 2, 0],
    fills: 2,
    resting: &[],
};

static DIRECT_FIRST: Applied = Applied {
    journal: DIRECT_BEFORE_IMPLIED,
    made: &[0, 0, 0, 0, 5],
    fills: 5,
    resting: &[(4, 1), (5, 1)],
};

/// The book's orders have these places, and so much of each is left.
fn expect_orders(rt: &impl Abort, book: &impl Book, want: &[(u64, u32)]) {
    holds(rt, book.len() == want.len());
    for n in 0..want.len() {
        let order = book.walk(n).expect(rt, "an order");
        holds(rt, (order.place, order.leaves) == want[n]);
    }
}

/// Applies the journal's entries. The fills.
fn apply_all(
    rt: &impl Abort,
    alloc: Global,
    rules: &Rulebook,
    journal: &[Entry],
    want: &Applied,
) -> Vec<Fill>
    requires { All FitsEntry journal.now }
{
    let count = journal.len();
    let mut applied = MatchedJournal::with_capacity(alloc, rules, count).expect(rt, "memory");
    let mut seen = 0usize;
    for entry in journal {
        applied.apply(entry).expect(rt, "memory");
        let made = applied.last_fills().len();
        holds(rt, want.made.get(seen).copied() == Some(made));
        seen = seen.wrapping_add(1);
    }
    holds(rt, applied.count() == count as u64);
    expect_orders(rt, applied.book(), want.resting);
    applied.into_fills()
}

/// The journal applied at once has the same fills; with what it sends, sixteen lists of bytes.
fn expect_whole(rt: &impl Abort, alloc: Global, rules: &Rulebook, journal: &[Entry], fills: &[Fill])
    requires { All FitsEntry journal.now }
{
    let whole = apply_journal(alloc, rules, stamp(), journal).expect(rt, "memory");
    holds(rt, whole.fills.as_slice() == fills);
    holds(rt, whole.out.len() == 16);
    let alone = fills_of_journal(alloc, rules, journal).expect(rt, "memory");
    holds(rt, alone.as_slice() == fills);
    let mut applied = MatchedJournal::new(alloc, rules).expect(rt, "memory");
    apply_entries(&mut applied, journal).expect(rt, "memory");
    holds(rt, applied.into_fills().as_slice() == fills);
}

/// The fills of the journal.
fn expect_applied(rt: &impl Abort, alloc: Global, want: &Applied) -> Vec<Fill> {
    let rules = three_months(rt);
    let journal = read_again(rt, alloc, want.journal);
    let fills = apply_all(rt, alloc, &rules, &journal, want);
    holds(rt, fills.len() == want.fills);
    expect_whole(rt, alloc, &rules, &journal, &fills);
    fills
}

#[test]
fn first_trade_applied(rt: HostRuntime) {
    let fills = expect_applied(&rt, rt.alloc(), &FIRST_TRADE);
    holds(&rt, fills.as_slice() == first_fills().as_slice());
}

#[test]
fn resting(rt: HostRuntime) {
    expect_applied(&rt, rt.alloc(), &DIRECT_FIRST);
}

/// A law asks nothing of who cites it, and does nothing when it runs. That it holds is the prover's to say.
#[test]
fn laws_have_no_premises() {
    numbers_spent();
    one_by_one();
}
