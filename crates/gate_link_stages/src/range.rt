//! Whether an entry is in the ranges of a journal's entries: what is known of it in the thread that sent it is known no
//! more in the thread that takes it from a ring.
ghost use Rattle.std.specs.Prelude.{◌≡◌, ◌↔◌, true, IsTrue};
ghost use Rattle.spread_rules_ids.specs.Ids.{is_id};
ghost use Rattle.spread_rules.specs.Journal.{FitsEntry, FitsEvent, FitsTicket, IsNumber, is_reject_reason};

use spread_rules::codes::{close_reason, session_reject_reason as reject};
use spread_rules::{Entry, Event, Ticket};
use spread_rules_ids::Id;
use spread_rules_ids::limits::{MAX_MSG_SEQ_NUM, MAX_NUMBER, MAX_PRICE, SESSIONS};

/// Every id is one.
fn is_id(id: &Id) -> bool
    ensures { IsTrue result ↔ (is_id id.now ≡ true) }
{
    // Cites what an id is.
    !id.bytes().is_empty()
}

fn fits_ticket(ticket: &Ticket) -> bool
    ensures { IsTrue result ↔ FitsTicket ticket.now }
{
    is_id(&ticket.id)
        && is_id(&ticket.symbol)
        && ticket.quantity <= MAX_NUMBER
        && -MAX_PRICE <= ticket.price
        && ticket.price <= MAX_PRICE
}

fn is_number(number: u32) -> bool
    ensures { IsTrue result ↔ IsNumber number }
{
    1 <= number && number <= MAX_MSG_SEQ_NUM
}

fn is_reject_reason(reason: u8) -> bool
    ensures { IsTrue result ↔ (is_reject_reason reason ≡ true) }
{
    reason == reject::REQUIRED_TAG_MISSING
        || reason == reject::TAG_WITHOUT_VALUE
        || reason == reject::VALUE_OUT_OF_RANGE
        || reason == reject::INCORRECT_FORMAT
        || reason == reject::INVALID_MSG_TYPE
}

fn fits_event(event: &Event) -> bool
    ensures { IsTrue result ↔ FitsEvent event.now }
{
    match event {
        Event::Logon { client, host, beat } => is_id(client) && is_id(host) && *beat <= MAX_NUMBER,
        Event::New(ticket) => fits_ticket(ticket),
        Event::Cancel { id, original } => is_id(id) && is_id(original),
        Event::Replace { original, ticket } => is_id(original) && fits_ticket(ticket),
        Event::TestReply { text } => is_id(text),
        Event::Gap { first } => is_number(*first),
        Event::Resend { first, last } => {
            is_number(*first) && (*last == 0 || (first <= last && *last <= MAX_MSG_SEQ_NUM))
        }
        Event::Reject { number, reason } => is_number(*number) && is_reject_reason(*reason),
        Event::Close { reason } => {
            close_reason::LOGOUT <= *reason && *reason <= close_reason::STREAM_ENDED
        }
    }
}

/// Whether the entry is in range.
pub fn fits_entry(entry: &Entry) -> bool
    ensures { IsTrue result ↔ FitsEntry entry.now }
{
    usize::from(entry.session) < SESSIONS && fits_event(&entry.event)
}
