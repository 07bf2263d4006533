//! The least candidate, over fronts alone.
ghost use Rattle.std.specs.Prelude.{◌≡◌, ◌<◌, All, IfSome, None, true, false};
ghost use Rattle.spread_rules_ids.specs.declared.limits.TheConstants.{MAX_MONTHS};
ghost use Rattle.spread_rules.specs.code.Cases.{better_of};
ghost use Rattle.spread_rules.specs.Candidates.{Pairs, cost, IsBest};
ghost use Rattle.spread_rules.specs.code.Candidates.{all_on, takes_part, candidate_of, HasOrderPrice, HasLegPrice};
ghost use Rattle.spread_rules_rulebook.specs.Prices.{IsLegPrice};
ghost use Rattle.spread_rules_rulebook.specs.Rulebook.{implied, month_count};
ghost use Rattle.spread_rules.specs.declared.candidate.Counterparty.TheVariants.{Implied};
ghost use Rattle.spread_rules_rulebook.specs.declared.instrument.Instrument.TheVariants.{Outright};
ghost use Rattle.spread_books_search.specs.Listed.{IsInMonths, IsNearFirst};
ghost use Rattle.spread_books_search.specs.code.Best.{IsFair, IsBeyond, IsDirect, IsBestDirect, is_better, Offers, CoversTwo, CoversBelow};
ghost use Rattle.spread_books_plain.specs.Pairs.{IsCheapest};

use crate::cheapest::{MonthPairs, Queue, cheapest_pair, spreads_with};
use spread_books_plain::{Book, PairCost};
use spread_rules::{
    Candidate, Counterparty, Instrument, Order, Rulebook, Side, candidate_for, is_within,
    levels_meet, ranking,
};

/// Whether the front of the new order's own instrument stands within its limit. Only its price is read: most fronts do
/// not.
#[inline(always)]
fn front_is_within<B: Book>(book: &B, new: &Order, side: Side) -> bool
    requires { All HasOrderPrice (B.orders book.now) }
    ensures { result ≡ false
        → IsBeyond (B.orders book.now) new.now.instrument side new.now }
{
    match book.front_level(new.instrument, side) {
        None => false,
        Some(level) => is_within(new, level.price),
    }
}

/// The best is the direct candidate of the front that the new order meets. A call of its own: most new orders meet
/// none.
#[inline(never)]
fn with_front<B: Book>(book: &B, new: &Order, best: &mut Option<Candidate>)
    requires order_price { All HasOrderPrice (B.orders book.now) }
    requires none { best.old ≡ None }
    ensures { IsBestDirect new.now (B.orders book.now) best.new }
{
    let side = new.side.opposite();
    if let Some(order) = book.front(new.instrument, side) {
        let price = order.price;
        if is_within(new, price) {
            let counterparty = Counterparty::Direct(order);
            *best = Some(Candidate {
                price,
                counterparty,
            });
        }
    }
}

/// The best with the direct candidates, whichever pairs take part.
fn with_direct<B: Book>(book: &B, new: &Order, best: &mut Option<Candidate>)
    requires order_price { All HasOrderPrice (B.orders book.now) }
    requires none { best.old ≡ None }
    ensures { IsBestDirect new.now (B.orders book.now) best.new }
{
    if front_is_within(book, new, new.side.opposite()) {
        with_front(book, new, best);
    }
}

/// The pair takes the place of the best, where it ranks before it.
fn offer_pair(new: &Order, best: &mut Option<Candidate>, first: Order, second: Order)
    requires first { HasOrderPrice first }
    requires second { HasOrderPrice second }
    requires best { IfSome best.old HasLegPrice }
    ensures value { best.new
        ≡ better_of new.now best.old (candidate_of all_on new.now (Implied first second)) }
    ensures leg_price { IfSome best.new HasLegPrice }
{
    let Some(pair) = candidate_for(new, Counterparty::Implied(first, second)) else {
        return;
    };
    if let Some(held) = best {
        if ranking(new, held) <= ranking(new, &pair) {
            return;
        }
    }
    *best = Some(pair);
}

/// Whether the fronts of two queues make an implied candidate. Where they do not, no pair of these queues does. Only
/// prices are read: most pairs do not meet a new order.
#[inline(always)]
fn fronts_meet<B: Book>(book: &B, new: &Order, first: Queue, second: Queue) -> bool
    requires { All HasOrderPrice (B.orders book.now) }
    ensures { result ≡ false
        → CoversTwo all_on new.now (B.orders book.now)
        first.instrument first.side second.instrument second.side None }
{
    let Some(a) = book.front_level(first.instrument, first.side) else {
        return false;
    };
    let Some(b) = book.front_level(second.instrument, second.side) else {
        return false;
    };
    levels_meet(new, &a, &b)
}

/// The best with the fronts of two queues, whose pair of months takes part.
#[inline(never)]
fn with_fronts<B: Book>(
    book: &B,
    new: &Order,
    best: &mut Option<Candidate>,
    first: Queue,
    second: Queue,
)
    requires order_price { All HasOrderPrice (B.orders book.now) }
    requires best { IfSome best.old HasLegPrice }
    ensures { (on : Pairs)
        → takes_part on new.now.instrument first.instrument ≡ true
        → IsFair on new.now (B.orders book.now) best.old
        → Offers on new.now (B.orders book.now) best.old best.new
        (CoversTwo on new.now (B.orders book.now)
        first.instrument first.side second.instrument second.side) }
{
    if let Some(a) = book.front(first.instrument, first.side) {
        if let Some(b) = book.front(second.instrument, second.side) {
            offer_pair(new, best, a, b);
        }
    }
}

/// The best with the pairs of two queues, whose pair of months takes part.
#[inline(always)]
fn with_queues<B: Book>(
    book: &B,
    new: &Order,
    best: &mut Option<Candidate>,
    first: Queue,
    second: Queue,
)
    requires order_price { All HasOrderPrice (B.orders book.now) }
    requires best { IfSome best.old HasLegPrice }
    ensures { (on : Pairs)
        → takes_part on new.now.instrument first.instrument ≡ true
        → IsFair on new.now (B.orders book.now) best.old
        → Offers on new.now (B.orders book.now) best.old best.new
        (CoversTwo on new.now (B.orders book.now)
        first.instrument first.side second.instrument second.side) }
{
    if fronts_meet(book, new, first, second) {
        with_fronts(book, new, best, first, second);
    }
}

/// Whether a pair at that price would rank before the best so far, a direct candidate: it costs less. Where there is no
/// best so far, whether it stands within the order's limit.
#[inline(always)]
fn is_better(new: &Order, best: &Option<Candidate>, price: i64) -> bool
    ensures { result ≡ is_better new.now best.now price }
{
    match best {
        None => is_within(new, price),
        Some(direct) => {
            let (cheaper, dearer) = match new.side {
                Side::Buy => (price, direct.price),
                Side::Sell => (direct.price, price),
            };
            cheaper < dearer
        }
    }
}

/// The price at which who trades on that side pays so much.
fn price_for(side: Side, paid: i64) -> i64
    requires { IsLegPrice paid }
    ensures { result ≡ cost side paid }
{
    match side {
        Side::Buy => paid,
        Side::Sell => -paid,
    }
}

/// What costs an order of that side and month the least, of the pairs that take part: the book has it at hand, or it is
/// searched for.
fn least_pair<B: Book>(book: &B, rules: &Rulebook, side: Side, month: u8) -> Option<PairCost>
    requires order_price { All HasOrderPrice (B.orders book.now) }
    requires months { All (λ o. IsInMonths (month_count rules.now) o.instrument)
        (B.orders book.now) }
    ensures least { IsCheapest (implied rules.now) (B.orders book.now) side month
        (month_count rules.now) result }
    ensures month { IfSome result (λ l. l.other_month < MAX_MONTHS) }
{
    let months = rules.months();
    match book.pair_at_hand(rules, side, month) {
        Some(pair) => pair,
        None => cheapest_pair(book, &MonthPairs { rules, months }, side, month),
    }
}

/// The best with the pairs of all other months that take part, where it is a direct candidate or none. Whole orders are
/// read of one month alone, and only where its pair ranks first.
fn with_months<B: Book>(
    book: &B,
    rules: &Rulebook,
    new: &Order,
    best: &mut Option<Candidate>,
    month: u8,
)
    requires order_price { All HasOrderPrice (B.orders book.now) }
    requires listed { All IsNearFirst (B.orders book.now) }
    requires months { All (λ o. IsInMonths (month_count rules.now) o.instrument)
        (B.orders book.now) }
    requires new { new.now.instrument ≡ Outright month }
    requires fair { IsFair (implied rules.now) new.now (B.orders book.now) best.old }
    requires best { IfSome best.old HasLegPrice }
    requires direct { IfSome best.old IsDirect }
    ensures { Offers (implied rules.now) new.now (B.orders book.now) best.old best.new
        (CoversBelow (implied rules.now) new.now (B.orders book.now) (month_count rules.now)) }
{
    if let Some(pair) = least_pair(book, rules, new.side, month) {
        if is_better(new, best, price_for(new.side, pair.cost)) {
            let other_month = pair.other_month as u8;
            let spreads = spreads_with(new.side, month, other_month);
            let outrights = Queue {
                instrument: Instrument::Outright(other_month),
                side: new.side.opposite(),
            };
            with_fronts(book, new, best, spreads, outrights);
        }
    }
}

/// The least eligible candidate, over fronts alone. Rule M5.
pub fn best_candidate<B: Book>(book: &B, rules: &Rulebook, new: &Order) -> Option<Candidate>
    requires order_price { All HasOrderPrice (B.orders book.now) }
    requires listed { All IsNearFirst (B.orders book.now) }
    requires months { All (λ o. IsInMonths (month_count rules.now) o.instrument)
        (B.orders book.now) }
    ensures best { IsBest (implied rules.now) new.now (B.orders book.now) result }
    ensures leg_price { IfSome result HasLegPrice }
{
    let mut best = None;
    with_direct(book, new, &mut best);
    match new.instrument {
        Instrument::Outright(month) => with_months(book, rules, new, &mut best, month),
        Instrument::Spread(near, far) => {
            if rules.implied(near, far) {
                let nears = Queue {
                    instrument: Instrument::Outright(near),
                    side: new.side.opposite(),
                };
                let fars = Queue {
                    instrument: Instrument::Outright(far),
                    side: new.side,
                };
                with_queues(book, new, &mut best, nears, fars);
            }
        }
    }
    best
}
