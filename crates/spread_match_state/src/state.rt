//! The state of a market, and what each kind of entry does to it.
ghost use Rattle.std.specs.Prelude.{◌≡◌, ℕ, ◌<◌, ◌≤◌, List, Contains, OnOk, OnErr, IfOk, ◌++◌, [], is_some, None, true};
ghost use Rattle.std.specs.List.{find};
ghost use Rattle.spread_rules_ids.specs.declared.limits.TheConstants.{MAX_ORDER_QTY};
ghost use Rattle.spread_rules.specs.declared.event.Event.TheVariants.{New, Cancel, Replace};
ghost use Rattle.spread_rules.specs.code.Cases.{keeping_means};
ghost use Rattle.spread_rules.specs.Amended.{done};
ghost use Rattle.spread_rules.specs.Candidates.{PlacesDiffer};
ghost use Rattle.spread_rules_rulebook.specs.Prices.{IsOrderPrice};
ghost use Rattle.spread_rules.specs.Meaning.{has_id, is_refused, cancel_of_nothing_resting, untraded};
ghost use Rattle.spread_rules_rulebook.specs.Rulebook.{month_count};
ghost use Rattle.spread_match_state.specs.State.{empty_state};
ghost use Rattle.spread_books_search.specs.Listed.{IsInMonths, IsNearBeforeFar};
ghost use Rattle.spread_match_state.specs.Trade.{IsPriced};
ghost use Rattle.spread_match_state.specs.code.StateAfter.{refusal_in, matched_in, cancel_in, replaced_in, moved_in, meaning_in, state_after, state_with, IsReady};
ghost use Rattle.spread_match_orders.specs.code.Entering.{HaveStatuses};

use spread_books_plain::Book;
use spread_books_rows::with_quantity;
use spread_match_orders::{
    add_order, judge, keeps_place, moved_order, new_order, outcome_with, refusal, replace_refusal,
    resting_order, resting_status, trade_newest,
};
use spread_match_statuses::{Statuses, WHEN_IT_RESTS_NO_MORE};
use spread_rules::codes::{cxl_rej_reason, ord_rej_reason, ord_status};
use spread_rules::{
    Entry, Event, Fill, Instrument, NoMemory, Order, OrderStatus, Outcome, Rulebook, Ticket,
};
use spread_rules_ids::Id;
use std::alloc::Allocator;
use std::marker::Model;

/// Resting orders, the status of each New and Replace entry so far, and the greatest place that was given.
#[derive(Drop)]
pub struct MarketState<B: Book, A: Allocator + Copy> {
    book: B,
    statuses: Statuses<A>,
    last: u64,
}

impl<B: Book, A: Allocator + Copy> Model for MarketState<B, A> {
    ghost use Rattle.spread_match_state.specs.State.{MarketState};

    ghost Value = { MarketState };

    ghost view = { λ m. record {
      orders = B.orders m.book;
      statuses = m.statuses;
      last = m.last;
      quotes_by = B.quotes_by m.book;
    } };
}

/// A New entry's ticket, whose instrument the rulebook has.
#[derive(Clone, Copy)]
struct ListedTicket<'a> {
    place: u64,
    session: u8,
    ticket: &'a Ticket,
    instrument: Instrument,
}

impl<B: Book, A: Allocator + Copy> MarketState<B, A> {
    /// Before the first entry, over a book that is empty.
    pub fn new(alloc: A, book: B) -> Self
        requires { B.orders book ≡ [] }
        ensures { result ≡ empty_state (B.quotes_by book) }
    {
        MarketState {
            book,
            statuses: Statuses::new(alloc),
            last: 0,
        }
    }

    /// Makes room for the statuses of so many entries more.
    pub fn reserve(&mut self, entries: usize) -> Result<(), NoMemory>
        ensures { self.new ≡ self.old }
    {
        self.statuses.reserve(entries)
    }

    /// The resting orders.
    pub fn book(&self) -> &B
        ensures orders { B.orders result.now ≡ self.now.orders }
        ensures rules { B.quotes_by result.now ≡ self.now.quotes_by }
    {
        &self.book
    }

    /// A ticket that is refused keeps its id used.
    fn refuse(
        &mut self,
        place: u64,
        session: u8,
        ticket: &Ticket,
        reason: u8,
    ) -> Result<Outcome, NoMemory>
        ensures outcome { IfOk result (λ outcome.
            outcome ≡ (refusal_in self.old session ticket.now reason).outcome) }
        ensures after { OnOk result (self.new
            ≡ state_with self.old place session (New ticket.now)
            (refusal_in self.old session ticket.now reason)) }
        ensures unchanged_on_err { OnErr result (self.new ≡ self.old) }
    {
        let used = self.statuses.add(OrderStatus {
            session,
            id: ticket.id,
            place,
            status: ord_status::REJECTED,
        })?;
        self.last = place;
        Ok(refusal(used, reason))
    }

    /// Matches a ticket's order of a listed instrument, which is refused only where its id was used. All growth comes
    /// first.
    fn match_new(
        &mut self,
        rules: &Rulebook,
        new: &ListedTicket<'_>,
        fills: &mut Vec<Fill, A>,
    ) -> Result<Outcome, NoMemory>
        requires ready { IsReady (month_count rules.now) self.old }
        requires price { IsOrderPrice new.now.ticket.now.price }
        requires some { 0 < new.now.ticket.now.quantity }
        requires listed { IsNearBeforeFar new.now.instrument }
        requires within { IsInMonths (month_count rules.now) new.now.instrument }
        requires place { self.old.last < new.now.place }
        ensures outcome { IfOk result (λ outcome. outcome
            ≡ (matched_in rules.now self.old new.now.place new.now.session new.now.ticket.now
            new.now.instrument).outcome) }
        ensures fills { OnOk result (fills.new.items
            ≡ fills.old.items
            ++ (matched_in rules.now self.old new.now.place new.now.session new.now.ticket.now
            new.now.instrument).fills) }
        ensures after { OnOk result (self.new
            ≡ state_with self.old new.now.place new.now.session (New new.now.ticket.now)
            (matched_in rules.now self.old new.now.place new.now.session new.now.ticket.now
            new.now.instrument)) }
        ensures unchanged_on_err { OnErr result (self.new ≡ self.old) }
        ensures no_fills { OnErr result (fills.new.items ≡ fills.old.items) }
    {
        let ticket = new.ticket;
        fills.reserve(3 * self.book.len().min(ticket.quantity as usize))?;
        let order = new_order(new.place, new.session, ticket, new.instrument);
        let used = add_order(&mut self.book, &mut self.statuses, &order)?;
        if used {
            self.last = new.place;
            return Ok(Outcome::Refused(ord_rej_reason::DUPLICATE_ORDER));
        }
        let left = trade_newest(
            &mut self.book,
            &mut self.statuses,
            rules,
            &order,
            ticket.immediate,
            fills,
        );
        self.last = new.place;
        Ok(outcome_with(ticket.immediate, left))
    }

    /// A New entry: refused, or traded.
    fn apply_new(
        &mut self,
        rules: &Rulebook,
        place: u64,
        session: u8,
        ticket: &Ticket,
        fills: &mut Vec<Fill, A>,
    ) -> Result<Outcome, NoMemory>
        requires ready { IsReady (month_count rules.now) self.old }
        requires price { IsOrderPrice ticket.now.price }
        requires place { self.old.last < place }
        ensures outcome { IfOk result (λ outcome.
            outcome ≡ (meaning_in rules.now self.old place session (New ticket.now)).outcome) }
        ensures fills { OnOk result (fills.new.items
            ≡ fills.old.items
            ++ (meaning_in rules.now self.old place session (New ticket.now)).fills) }
        ensures after { OnOk result (self.new
            ≡ state_after rules.now self.old place session (New ticket.now)) }
        ensures unchanged_on_err { OnErr result (self.new ≡ self.old) }
        ensures no_fills { OnErr result (fills.new.items ≡ fills.old.items) }
    {
        match judge(rules, ticket) {
            Err(reason) => self.refuse(place, session, ticket, reason),
            Ok(instrument) => {
                let new = ListedTicket {
                    place,
                    session,
                    ticket,
                    instrument,
                };
                self.match_new(rules, &new, fills)
            }
        }
    }

    /// What a request says of an order that does not rest.
    fn refusal_of(&self, session: u8, original: &Id) -> Outcome
        ensures { result
            ≡ cancel_of_nothing_resting (find (has_id session original.now) self.now.statuses) }
    {
        match self.statuses.find(session, original) {
            Some(status) => Outcome::CancelRefused {
                reason: cxl_rej_reason::TOO_LATE,
                place: status.place,
                status: status.status,
            },
            None => Outcome::CancelRefused {
                reason: cxl_rej_reason::UNKNOWN_ORDER,
                place: 0,
                status: ord_status::REJECTED,
            },
        }
    }

    /// Ends the resting order with the original id. Rule M9.
    fn cancel(&mut self, place: u64, session: u8, id: &Id, original: &Id) -> Outcome
        requires places { PlacesDiffer self.old.orders }
        requires known { HaveStatuses self.old.statuses self.old.orders }
        requires place { self.old.last < place }
        ensures outcome { result ≡ (cancel_in self.old session original.now).outcome }
        ensures after { self.new
            ≡ state_with self.old place session (Cancel id.now original.now)
            (cancel_in self.old session original.now) }
    {
        let resting = resting_order(&self.book, &self.statuses, session, original);
        self.last = place;
        match resting {
            Some(order) => {
                self.book.remove(order.place);
                Outcome::Cancelled(order)
            }
            None => self.refusal_of(session, original),
        }
    }

    /// A replace that is refused keeps its id used.
    fn refuse_replace(
        &mut self,
        place: u64,
        session: u8,
        ticket: &Ticket,
        refusal: Outcome,
    ) -> Result<Outcome, NoMemory>
        requires { is_refused refusal ≡ true }
        ensures outcome { IfOk result (λ outcome. outcome ≡ refusal) }
        ensures after { OnOk result ((original : List ℕ) → self.new
            ≡ state_with self.old place session (Replace original ticket.now)
            (untraded refusal self.old.orders)) }
        ensures unchanged_on_err { OnErr result (self.new ≡ self.old) }
    {
        self.statuses.add(OrderStatus {
            session,
            id: ticket.id,
            place,
            status: ord_status::REJECTED,
        })?;
        self.last = place;
        Ok(refusal)
    }

    /// The resting order keeps its place, under the ticket's id, which was not used, and with its quantity. All growth
    /// comes first.
    fn keep_place(
        &mut self,
        place: u64,
        ticket: &Ticket,
        resting: &Order,
    ) -> Result<Outcome, NoMemory>
        requires places { PlacesDiffer self.old.orders }
        requires known { HaveStatuses self.old.statuses self.old.orders }
        requires rests { Contains self.old.orders resting.now }
        requires unused { find (has_id resting.now.session ticket.now.id) self.old.statuses
            ≡ None }
        requires more { done resting.now < ticket.now.quantity }
        requires most { ticket.now.quantity ≤ MAX_ORDER_QTY }
        ensures outcome { IfOk result (λ outcome.
            outcome ≡ (keeping_means self.old.orders ticket.now resting.now).outcome) }
        ensures after { OnOk result (self.new
            ≡ state_with self.old place resting.now.session (Replace resting.now.id ticket.now)
            (keeping_means self.old.orders ticket.now resting.now)) }
        ensures unchanged_on_err { OnErr result (self.new ≡ self.old) }
    {
        let status = OrderStatus {
            session: resting.session,
            id: ticket.id,
            place: resting.place,
            status: WHEN_IT_RESTS_NO_MORE,
        };
        self.statuses
            .add_amended(&mut self.book, status, ticket.quantity)?;
        self.statuses.mark_replaced(resting);
        self.last = place;
        Ok(Outcome::Replaced(with_quantity(resting, ticket.id, ticket.quantity)))
    }

    /// The resting order loses its place, and is traded as a new one. All growth comes first.
    fn lose_place(
        &mut self,
        rules: &Rulebook,
        place: u64,
        ticket: &Ticket,
        resting: &Order,
        fills: &mut Vec<Fill, A>,
    ) -> Result<Outcome, NoMemory>
        requires ready { IsReady (month_count rules.now) self.old }
        requires rests { Contains self.old.orders resting.now }
        requires unused { find (has_id resting.now.session ticket.now.id) self.old.statuses
            ≡ None }
        requires price { IsOrderPrice ticket.now.price }
        requires more { done resting.now < ticket.now.quantity }
        requires place { self.old.last < place }
        ensures outcome { IfOk result (λ outcome.
            outcome ≡ (moved_in rules.now self.old place ticket.now resting.now).outcome) }
        ensures fills { OnOk result (fills.new.items
            ≡ fills.old.items
            ++ (moved_in rules.now self.old place ticket.now resting.now).fills) }
        ensures after { OnOk result (self.new
            ≡ state_with self.old place resting.now.session (Replace resting.now.id ticket.now)
            (moved_in rules.now self.old place ticket.now resting.now)) }
        ensures unchanged_on_err { OnErr result (self.new ≡ self.old) }
        ensures no_fills { OnErr result (fills.new.items ≡ fills.old.items) }
    {
        fills.reserve(3 * self.book.len().min(ticket.quantity as usize))?;
        let order = moved_order(place, ticket, resting);
        add_order(&mut self.book, &mut self.statuses, &order)?;
        self.book.remove(resting.place);
        self.statuses.mark_replaced(resting);
        trade_newest(
            &mut self.book,
            &mut self.statuses,
            rules,
            &order,
            false,
            fills,
        );
        self.last = place;
        Ok(Outcome::Replaced(order))
    }

    /// Whether an earlier New or Replace entry of the session gave the id.
    fn is_used(&self, session: u8, id: &Id) -> bool
        ensures { result ≡ is_some (find (has_id session id.now) self.now.statuses) }
    {
        self.statuses.find(session, id).is_some()
    }

    /// A Replace entry that names a resting order. Rule M10.
    fn replace_resting(
        &mut self,
        rules: &Rulebook,
        place: u64,
        ticket: &Ticket,
        resting: &Order,
        fills: &mut Vec<Fill, A>,
    ) -> Result<Outcome, NoMemory>
        requires ready { IsReady (month_count rules.now) self.old }
        requires rests { Contains self.old.orders resting.now }
        requires price { IsOrderPrice ticket.now.price }
        requires place { self.old.last < place }
        ensures outcome { IfOk result (λ outcome. outcome
            ≡ (replaced_in rules.now self.old place ticket.now resting.now).outcome) }
        ensures fills { OnOk result (fills.new.items
            ≡ fills.old.items
            ++ (replaced_in rules.now self.old place ticket.now resting.now).fills) }
        ensures after { OnOk result (self.new
            ≡ state_with self.old place resting.now.session (Replace resting.now.id ticket.now)
            (replaced_in rules.now self.old place ticket.now resting.now)) }
        ensures unchanged_on_err { OnErr result (self.new ≡ self.old) }
        ensures no_fills { OnErr result (fills.new.items ≡ fills.old.items) }
    {
        let session = resting.session;
        let used = self.is_used(session, &ticket.id);
        if let Some(reason) = replace_refusal(rules, ticket, resting, used) {
            let refusal = Outcome::CancelRefused {
                reason,
                place: resting.place,
                status: resting_status(resting),
            };
            return self.refuse_replace(place, session, ticket, refusal);
        }
        if keeps_place(ticket, resting) {
            self.keep_place(place, ticket, resting)
        } else {
            self.lose_place(rules, place, ticket, resting, fills)
        }
    }

    /// Applies one entry. All growth comes first, so after NoMemory nothing has changed. Rule M11.
    pub fn apply_entry(
        &mut self,
        rules: &Rulebook,
        place: u64,
        entry: &Entry,
        fills: &mut Vec<Fill, A>,
    ) -> Result<Outcome, NoMemory>
        requires ready { IsReady (month_count rules.now) self.old }
        requires entry { IsPriced entry.now.event }
        requires place { self.old.last < place }
        ensures outcome { IfOk result (λ outcome.
            outcome ≡ (meaning_in rules.now self.old place entry.now.session entry.now.event).outcome) }
        ensures fills { OnOk result (fills.new.items
            ≡ fills.old.items
            ++ (meaning_in rules.now self.old place entry.now.session entry.now.event).fills) }
        ensures after { OnOk result (self.new
            ≡ state_after rules.now self.old place entry.now.session entry.now.event) }
        ensures unchanged_on_err { OnErr result (self.new ≡ self.old) }
        ensures no_fills { OnErr result (fills.new.items ≡ fills.old.items) }
    {
        match &entry.event {
            Event::New(ticket) => self.apply_new(rules, place, entry.session, ticket, fills),
            Event::Cancel { id, original } => Ok(self.cancel(place, entry.session, id, original)),
            Event::Replace { original, ticket } => {
                let session = entry.session;
                match resting_order(&self.book, &self.statuses, session, original) {
                    Some(resting) => self.replace_resting(rules, place, ticket, &resting, fills),
                    None => {
                        let refusal = self.refusal_of(session, original);
                        self.refuse_replace(place, session, ticket, refusal)
                    }
                }
            }
            _ => {
                self.last = place;
                Ok(Outcome::Session)
            }
        }
    }
}
