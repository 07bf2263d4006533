//! What a book of resting orders does.
ghost use Rattle.std.specs.Prelude.{◌≡◌, ◌==◌, ◌<◌, ◌++◌, ◌∷◌, [], List, Option, length, slice_get, OnOk, OnErr, IfSome, All};
ghost use Rattle.std.specs.List.{find};
ghost use Rattle.spread_rules_ids.specs.declared.limits.TheConstants.{MAX_MONTHS};
ghost use Rattle.spread_rules_rulebook.specs.Rulebook.{Rules, implied};
ghost use Rattle.spread_rules.specs.code.Candidates.{HasOrderPrice};
ghost use Rattle.spread_rules.specs.Clearing.{reduced, removed};
ghost use Rattle.spread_rules.specs.Meaning.{is_own};
ghost use Rattle.spread_rules.specs.declared.order.Order.{Order};
ghost use Rattle.spread_rules.specs.code.Amended.{amended};
ghost use Rattle.spread_books_plain.specs.Pairs.{IsCheapest};
ghost use Rattle.spread_books_plain.specs.Queues.{CanAmend, IsFront, IsFrontLevel};
ghost use Rattle.spread_books_rows.specs.Places.{HasMore, HasPlace};

use crate::pair::PairCost;
use spread_rules::{Instrument, Level, NoMemory, Order, Rulebook, Side};
use spread_rules_ids::Id;

/// Resting orders, seen as the list of them in order of place, and the rulebook by which the book quotes, where it
/// quotes.
pub trait Book {
    ghost orders: { Self → List Order };

    ghost quotes_by: { Self → Option Rules };

    /// The front of a queue: the best price for who meets it, then the earliest place. None where no order of that
    /// instrument and side rests. Takes no memory.
    fn front(&self, instrument: Instrument, side: Side) -> Option<Order>
        ensures { IsFront (orders self.now) instrument side result };

    /// Where the front of a queue stands, for who asks no more of it than its price. None where no order of that
    /// instrument and side rests. Takes no memory.
    fn front_level(&self, instrument: Instrument, side: Side) -> Option<Level>
        ensures { IsFrontLevel (orders self.now) instrument side result }
    {
        match self.front(instrument, side) {
            None => None,
            Some(order) => Some(order.level()),
        }
    }

    /// What costs an order of that side and month the least, of the pairs of fronts that take part under the rulebook,
    /// where the book has it at hand, and None where it has to be searched for. Takes no memory.
    fn pair_at_hand(&self, rules: &Rulebook, side: Side, month: u8) -> Option<Option<PairCost>>
        requires { All HasOrderPrice (orders self.now) }
        ensures { IfSome result
            (IsCheapest (implied rules.now) (orders self.now) side month MAX_MONTHS) }
    {
        None
    }

    /// The session's resting order with that id. Takes no memory, and time for all orders before it: who knows its
    /// place asks `at`.
    fn find(&self, session: u8, id: &Id) -> Option<Order>
        ensures { result ≡ find (is_own session id.now) (orders self.now) };

    /// The resting order of that place. Takes no memory.
    fn at(&self, place: u64) -> Option<Order>
        ensures { result ≡ find (λ o. o.place == place) (orders self.now) };

    /// The order rests, behind all others: its place is above theirs. All growth comes before the change, so after
    /// NoMemory nothing has changed.
    fn add(&mut self, order: Order) -> Result<(), NoMemory>
        requires { All (λ o. o.place < order.place) (orders self.old) }
        ensures ok { OnOk result (orders self.new ≡ orders self.old ++ order ∷ []) }
        ensures unchanged_on_err { OnErr result (orders self.new ≡ orders self.old) }
        ensures rules { quotes_by self.new ≡ quotes_by self.old };

    /// So many lots fewer are left of the order of that place, which rests with more left. Takes no memory.
    fn reduce(&mut self, place: u64, by: u32)
        requires { HasMore (orders self.old) place by }
        ensures less { orders self.new ≡ reduced place by (orders self.old) }
        ensures rules { quotes_by self.new ≡ quotes_by self.old };

    /// The order of that place takes that id and that quantity, what is filled included, and keeps its place. All growth
    /// comes before the change, so after NoMemory nothing has changed.
    fn amend(&mut self, place: u64, id: Id, quantity: u32) -> Result<(), NoMemory>
        requires { CanAmend (orders self.old) place id quantity }
        ensures ok { OnOk result
            (orders self.new ≡ amended place id quantity (orders self.old)) }
        ensures unchanged_on_err { OnErr result (orders self.new ≡ orders self.old) }
        ensures rules { quotes_by self.new ≡ quotes_by self.old };

    /// The order of that place rests no longer. Takes no memory.
    fn remove(&mut self, place: u64)
        requires { HasPlace (orders self.old) place }
        ensures gone { orders self.new ≡ removed place (orders self.old) }
        ensures rules { quotes_by self.new ≡ quotes_by self.old };

    /// The n-th resting order from 0 in order of place. Takes no memory.
    fn walk(&self, n: usize) -> Option<Order>
        ensures { result ≡ slice_get (orders self.now) n };

    /// How many orders rest. Takes no memory.
    fn len(&self) -> usize
        ensures { result ≡ length (orders self.now) };
}
