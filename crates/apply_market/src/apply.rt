//! Entries applied one after another: the market over the index book, and all fills so far.
ghost use Rattle.std.specs.Prelude.{◌≡◌, ◌<◌, ◌+◌, ◌-◌, ◌^◌, [], IfOk, IfErr, OnOk, OnErr, List, drop};
ghost use Rattle.spread_rules.specs.declared.event.Entry.{Entry};
ghost use Rattle.spread_rules.specs.Journal.{FitsEntry};
ghost use Rattle.apply_market.specs.Application.{HasApplied, HasAppliedNext, IsApplying, rules_of};
ghost use Rattle.apply_market.specs.declared.fault.ApplyFault.TheVariants.{NoMemory};

use crate::fault::ApplyFault;
use spread_books::IndexBook;
use spread_match::Market;
use spread_rules::{Entry, Fill, Outcome, Rulebook};
use std::alloc::Allocator;
use std::marker::Model;

/// Entries applied in order, places counting from 1.
#[derive(Drop)]
pub struct MatchedJournal<'r, A: Allocator + Copy> {
    market: Market<'r, IndexBook<'r, A>, A>,
    count: u64,
    fills: Vec<Fill, A>,
    /// Where the fills of the entry that was applied last begin.
    last: usize,
}

impl<'r, A: Allocator + Copy> Model for MatchedJournal<'r, A> {
    ghost use Rattle.std.specs.Prelude.{◌≡◌, ◌≤◌, length};
    ghost use Rattle.apply_market.specs.Application.{Application};

    ghost Value = { Application };

    ghost view = { λ a. record {
      market = a.market;
      count = a.count;
      fills = a.fills.items;
      last = a.last;
    } };

    ghost invariant = { λ a.
        (a.market.state.last ≡ a.count) × (a.last ≤ length a.fills.items) };
}

impl<'r, A: Allocator + Copy> MatchedJournal<'r, A> {
    /// Before the first entry. NoMemory has place 0.
    pub fn new(alloc: A, rulebook: &'r Rulebook) -> Result<Self, ApplyFault>
        ensures start { IfOk result (HasApplied []) }
        ensures rules { IfOk result (λ a. rules_of a ≡ rulebook.now) }
        ensures fault { IfErr result (λ f. f ≡ NoMemory 0) }
    {
        MatchedJournal::with_capacity(alloc, rulebook, 0)
    }

    /// Before the first entry, with room for the ids and statuses of so many. NoMemory has place 0.
    pub fn with_capacity(
        alloc: A,
        rulebook: &'r Rulebook,
        entries: usize,
    ) -> Result<Self, ApplyFault>
        ensures start { IfOk result (HasApplied []) }
        ensures rules { IfOk result (λ a. rules_of a ≡ rulebook.now) }
        ensures fault { IfErr result (λ f. f ≡ NoMemory 0) }
    {
        // Cites that a rulebook is lawful.
        rulebook.months();
        let Ok(book) = IndexBook::new(alloc, rulebook) else {
            return Err(ApplyFault::NoMemory(0));
        };
        let mut applied = MatchedJournal {
            market: Market::new(alloc, rulebook, book),
            count: 0,
            fills: Vec::new(alloc),
            last: 0,
        };
        if applied.market.reserve(entries).is_err() {
            // Drops the market, whose drop is written out in that call alone.
            applied.into_fills();
            return Err(ApplyFault::NoMemory(0));
        }
        Ok(applied)
    }

    /// Applies the next entry, and says what came of it. NoMemory names its place, and then nothing has changed.
    pub fn apply(&mut self, entry: &Entry) -> Result<Outcome, ApplyFault>
        requires fits { FitsEntry entry.now }
        requires applied { IsApplying self.old }
        requires room { self.old.count < 2 ^ 64 - 1 }
        ensures next { IfOk result (λ o. (entries : List Entry) → HasApplied entries self.old
            → HasAppliedNext entries entry.now o self.new) }
        ensures rules { rules_of self.new ≡ rules_of self.old }
        ensures count { OnOk result (self.new.count ≡ self.old.count + 1) }
        ensures fault { IfErr result (λ f. f ≡ NoMemory (self.old.count + 1)) }
        ensures unchanged_on_err { OnErr result (self.new ≡ self.old) }
    {
        let place = self.count + 1;
        let last = self.fills.len();
        match self.market.apply(place, entry, &mut self.fills) {
            Ok(outcome) => {
                self.count = place;
                self.last = last;
                Ok(outcome)
            }
            Err(_) => Err(ApplyFault::NoMemory(place)),
        }
    }

    /// How many entries were applied.
    pub fn count(&self) -> u64
        ensures { result ≡ self.now.count }
    {
        self.count
    }

    /// The book of the orders that rest behind the entries that were applied.
    pub fn book(&self) -> &IndexBook<'r, A>
        ensures { result.now.orders ≡ self.now.market.state.orders }
    {
        self.market.book()
    }

    /// The fills of the entry that was applied last.
    pub fn last_fills(&self) -> &[Fill]
        ensures { result.now ≡ drop self.now.last self.now.fills }
    {
        &self.fills[self.last..]
    }

    /// The fills of all entries that were applied, in order.
    pub fn into_fills(self) -> Vec<Fill, A>
        ensures { result.items ≡ self.entry.fills }
    {
        self.fills
    }
}
