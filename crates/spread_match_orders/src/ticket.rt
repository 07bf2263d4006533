//! Whether a ticket can be a new order, and what a replace request may make of a resting one.
ghost use Rattle.std.specs.Prelude.{◌≡◌, Option, None, is_some, cond};
ghost use Rattle.spread_rules.specs.declared.codes.ord_rej_reason.TheConstants.{DUPLICATE_ORDER};
ghost use Rattle.spread_rules.specs.declared.outcome.Outcome.TheVariants.{Refused};
ghost use Rattle.spread_rules.specs.declared.outcome.OrderStatus.{OrderStatus};
ghost use Rattle.spread_rules.specs.Amended.{done};
ghost use Rattle.spread_rules.specs.Meaning.{order_of, outcome_of, may_replace};
ghost use Rattle.spread_rules.specs.code.Meaning.{refusal_or_instrument, resting_status, keeps_place, moved_to};
ghost use Rattle.spread_rules_rulebook.specs.Rulebook.{find_symbol};
ghost use Rattle.spread_match_orders.specs.code.Refusals.{replace_refusal};

use spread_books_rows::with_quantity;
use spread_rules::codes::{cxl_rej_reason, ord_rej_reason, ord_status};
use spread_rules::{Instrument, Order, Outcome, Rulebook, Ticket};
use spread_rules_ids::limits;

/// The instrument, or why the ticket is refused, for one whose id was not used.
pub fn judge(rules: &Rulebook, ticket: &Ticket) -> Result<Instrument, u8>
    ensures { result
        ≡ refusal_or_instrument rules.now ticket.now None
        (find_symbol rules.now ticket.now.symbol) }
{
    judge_fields(rules, ticket, rules.find(ticket.symbol.bytes()))
}

fn judge_fields(
    rules: &Rulebook,
    ticket: &Ticket,
    named: Option<Instrument>,
) -> Result<Instrument, u8>
    ensures { result ≡ refusal_or_instrument rules.now ticket.now None named }
{
    match named {
        None => Err(ord_rej_reason::UNKNOWN_SYMBOL),
        Some(instrument) => {
            if ticket.quantity == 0 || ticket.quantity > limits::MAX_ORDER_QTY {
                Err(ord_rej_reason::EXCEEDS_LIMIT)
            } else if ticket.price % rules.tick() != 0 {
                Err(ord_rej_reason::OFF_TICK)
            } else {
                Ok(instrument)
            }
        }
    }
}

/// A refusal. That its id was used comes before any other reason. Rule M2.
pub fn refusal(used: bool, reason: u8) -> Outcome
    ensures { result ≡ Refused (cond used DUPLICATE_ORDER reason) }
{
    Outcome::Refused(if used {
        ord_rej_reason::DUPLICATE_ORDER
    } else {
        reason
    })
}

/// A new order as it comes in.
pub fn new_order(place: u64, session: u8, ticket: &Ticket, instrument: Instrument) -> Order
    ensures { result ≡ order_of place session ticket.now instrument }
{
    Order {
        place,
        session,
        id: ticket.id,
        instrument,
        side: ticket.side,
        price: ticket.price,
        quantity: ticket.quantity,
        leaves: ticket.quantity,
    }
}

/// What becomes of an order of which so much is left. Rule M8.
pub fn outcome_with(immediate: bool, left: u32) -> Outcome
    ensures { result ≡ outcome_of immediate left }
{
    if left == 0 {
        Outcome::Filled
    } else if immediate {
        Outcome::Ended { left }
    } else {
        Outcome::Rested
    }
}

/// How many lots of the order are filled.
fn filled_of(order: &Order) -> u32
    ensures { result ≡ done order.now }
{
    order.quantity.saturating_sub(order.leaves)
}

/// How a resting order stands.
pub fn resting_status(order: &Order) -> u8
    ensures { result ≡ resting_status order.now }
{
    if filled_of(order) == 0 {
        ord_status::NEW
    } else {
        ord_status::PARTIALLY_FILLED
    }
}

/// Whether the ticket, whose id may have been used, could be a new day order of the resting order's instrument and side.
fn may_replace(rules: &Rulebook, ticket: &Ticket, resting: &Order, used: bool) -> bool
    ensures { (earlier : Option OrderStatus) → used ≡ is_some earlier
        → result ≡ may_replace ticket.now resting.now
        (refusal_or_instrument rules.now ticket.now earlier
        (find_symbol rules.now ticket.now.symbol)) }
{
    if used || ticket.immediate || ticket.side != resting.side {
        return false;
    }
    match judge(rules, ticket) {
        Ok(instrument) => instrument == resting.instrument,
        Err(_) => false,
    }
}

/// Why the replace of a resting order is refused, if it is. Rule M10.
pub fn replace_refusal(rules: &Rulebook, ticket: &Ticket, resting: &Order, used: bool) -> Option<u8>
    ensures { (earlier : Option OrderStatus) → used ≡ is_some earlier
        → result ≡ replace_refusal ticket.now resting.now
        (refusal_or_instrument rules.now ticket.now earlier
        (find_symbol rules.now ticket.now.symbol)) }
{
    if !may_replace(rules, ticket, resting, used) {
        Some(cxl_rej_reason::BROKER_OPTION)
    } else if ticket.quantity <= filled_of(resting) {
        Some(cxl_rej_reason::TOO_LATE)
    } else {
        None
    }
}

/// Whether the order keeps its place: at the same price, and for no more. Rule M10.
pub fn keeps_place(ticket: &Ticket, resting: &Order) -> bool
    ensures { result ≡ keeps_place ticket.now resting.now }
{
    ticket.price == resting.price && ticket.quantity <= resting.quantity
}

/// The resting order at that place, under the ticket's id and with its quantity and price.
pub fn moved_order(place: u64, ticket: &Ticket, resting: &Order) -> Order
    ensures { result ≡ moved_to place ticket.now resting.now }
{
    Order {
        place,
        price: ticket.price,
        ..with_quantity(resting, ticket.id, ticket.quantity)
    }
}
