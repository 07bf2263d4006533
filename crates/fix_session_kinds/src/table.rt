//! The kinds of messages with their tags, and what an accepted message of each kind means.
//!
//! The tags of a kind are read in their order. The first fault is the SessionRejectReason of the Reject.
ghost use Rattle.std.specs.Prelude.{◌≡◌, Result, Err, ◌==◌, IfOk, true, codes};
ghost use Rattle.std.specs.List.{list_any};
ghost use Rattle.spread_rules_ids.specs.Ids.{is_id};
ghost use Rattle.fix_wire_values.specs.Values.{number_in, quantity_in, price_in};
ghost use Rattle.fix_wire_frames.specs.declared.tags.TheConstants as tags;
ghost use Rattle.spread_rules.specs.declared.codes.session_reject_reason.TheConstants as session_reject_reason;
ghost use Rattle.fix_session_kinds.specs.Table.{value_at, id_at, read_at, choice_at, choice_or, test_request, resend_request, sequence_reset, new_order, cancel_request, replace_request, meaning_of_message, reason_of};
ghost use Rattle.fix_session_kinds.specs.code.ByKind.{meaning_of_kind};
ghost use Rattle.fix_session_kinds.specs.code.Readers.{bytes_behind, ticket_of, ticket_behind, stamped, passed_over, one_of, side_at, is_immediate_at};

use fix_wire_frames::{Message, field_values, msg_types, tags};
use fix_wire_values::{Unread, read_number, read_price, read_quantity};
use spread_rules::codes::{session_reject_reason, side};
use spread_rules::{Event, Side, Ticket};
use spread_rules_ids::Id;
use spread_rules_ids::limits::FIRST_MSG_SEQ_NUM;

/// What an accepted message means.
#[derive(Clone, Copy)]
pub enum Meaning {
    /// The message is passed over.
    Nothing,
    /// The message says this to the host.
    Says(Event),
    /// The message is a gap fill, and this number is due after it.
    GapFill(u32),
}

/// The text of a tag that has to stand and hold something.
fn value_at<'a>(message: &Message<'a>, tag: u32) -> Result<&'a [u8], u8>
    ensures { bytes_behind result ≡ value_at tag message.now.frame.now }
{
    match message.get(tag) {
        None => Err(session_reject_reason::REQUIRED_TAG_MISSING),
        Some([]) => Err(session_reject_reason::TAG_WITHOUT_VALUE),
        Some(text) => Ok(text),
    }
}

/// The text of a tag that has to stand and be an id.
fn id_text_at<'a>(message: &Message<'a>, tag: u32) -> Result<&'a [u8], u8>
    ensures text { bytes_behind result ≡ id_at tag message.now.frame.now }
    ensures id { IfOk result (λ text. is_id text.now ≡ true) }
{
    let text = value_at(message, tag)?;
    if Id::fits(text) {
        Ok(text)
    } else {
        Err(session_reject_reason::VALUE_OUT_OF_RANGE)
    }
}

/// The reason to reject a value that can't be read.
fn reason_of(fault: Unread) -> u8
    ensures { result ≡ reason_of fault }
{
    match fault {
        Unread::Format => session_reject_reason::INCORRECT_FORMAT,
        Unread::Range => session_reject_reason::VALUE_OUT_OF_RANGE,
    }
}

fn number_at(message: &Message, tag: u32) -> Result<u32, u8>
    ensures { result ≡ read_at number_in tag message.now.frame.now }
{
    match read_number(value_at(message, tag)?) {
        Ok(number) => Ok(number),
        Err(fault) => Err(reason_of(fault)),
    }
}

fn quantity_at(message: &Message, tag: u32) -> Result<u32, u8>
    ensures { result ≡ read_at quantity_in tag message.now.frame.now }
{
    match read_quantity(value_at(message, tag)?) {
        Ok(quantity) => Ok(quantity),
        Err(fault) => Err(reason_of(fault)),
    }
}

fn price_at(message: &Message, tag: u32) -> Result<i64, u8>
    ensures { result ≡ read_at price_in tag message.now.frame.now }
{
    match read_price(value_at(message, tag)?) {
        Ok(price) => Ok(price),
        Err(fault) => Err(reason_of(fault)),
    }
}

fn is_among(byte: u8, allowed: &[u8]) -> bool
    ensures { result ≡ list_any (λ a. a == byte) allowed.now }
{
    for a in allowed {
        if *a == byte {
            return true;
        }
    }
    false
}

/// The one byte of a text, where it is allowed.
fn one_of(allowed: &[u8], text: &[u8]) -> Result<u8, u8>
    ensures { result ≡ one_of allowed.now text.now }
{
    match text {
        [byte] if is_among(*byte, allowed) => Ok(*byte),
        _ => Err(session_reject_reason::VALUE_OUT_OF_RANGE),
    }
}

fn choice_at(message: &Message, tag: u32, allowed: &[u8]) -> Result<u8, u8>
    ensures { result ≡ choice_at allowed.now tag message.now.frame.now }
{
    one_of(allowed, value_at(message, tag)?)
}

/// Side.
fn side_at(message: &Message) -> Result<Side, u8>
    ensures { result ≡ side_at message.now.frame.now }
{
    match choice_at(message, tags::SIDE, b"12")? {
        side::BUY => Ok(Side::Buy),
        _ => Ok(Side::Sell),
    }
}

/// TimeInForce: whether an order is immediate. Without the tag it is a day order.
fn is_immediate_at(message: &Message) -> Result<bool, u8>
    ensures { result ≡ is_immediate_at message.now.frame.now }
{
    match message.get(tags::TIME_IN_FORCE) {
        None => Ok(false),
        Some([]) => Err(session_reject_reason::TAG_WITHOUT_VALUE),
        Some(text) => Ok(one_of(b"03", text)? == field_values::IMMEDIATE_OR_CANCEL),
    }
}

/// GapFillFlag: a gap fill has to say that it is one.
fn gap_fill_flag_at(message: &Message) -> Result<u8, u8>
    ensures { result ≡ choice_or (Err session_reject_reason.VALUE_OUT_OF_RANGE) (codes "Y")
        tags.GAP_FILL_FLAG message.now.frame.now }
{
    match message.get(tags::GAP_FILL_FLAG) {
        None => Err(session_reject_reason::VALUE_OUT_OF_RANGE),
        Some([]) => Err(session_reject_reason::TAG_WITHOUT_VALUE),
        Some(text) => one_of(b"Y", text),
    }
}

/// A Heartbeat or a Reject.
fn passed_over(message: &Message) -> Result<Meaning, u8>
    ensures { result ≡ passed_over message.now.frame.now }
{
    value_at(message, tags::SENDING_TIME)?;
    Ok(Meaning::Nothing)
}

#[tactic(auto, unfolding(crate::specs::Table::test_request))]
fn test_request(message: &Message) -> Result<Meaning, u8>
    ensures { result ≡ stamped message.now.frame.now (test_request message.now.frame.now) }
{
    value_at(message, tags::SENDING_TIME)?;
    let text = Id::of(id_text_at(message, tags::TEST_REQ_ID)?);
    Ok(Meaning::Says(Event::TestReply { text }))
}

#[tactic(auto, unfolding(crate::specs::Table::resend_request))]
fn resend_request(message: &Message) -> Result<Meaning, u8>
    ensures { result ≡ stamped message.now.frame.now (resend_request message.now.frame.now) }
{
    value_at(message, tags::SENDING_TIME)?;
    let first = number_at(message, tags::BEGIN_SEQ_NO)?;
    if first < FIRST_MSG_SEQ_NUM {
        return Err(session_reject_reason::VALUE_OUT_OF_RANGE);
    }
    let last = number_at(message, tags::END_SEQ_NO)?;
    if last == 0 {
        return Ok(Meaning::Says(Event::Resend { first, last }));
    }
    if last < first {
        return Err(session_reject_reason::VALUE_OUT_OF_RANGE);
    }
    Ok(Meaning::Says(Event::Resend { first, last }))
}

/// A SequenceReset with this number.
#[tactic(auto, unfolding(crate::specs::Table::sequence_reset))]
fn sequence_reset(message: &Message, number: u32) -> Result<Meaning, u8>
    ensures { result
        ≡ stamped message.now.frame.now (sequence_reset message.now.frame.now number) }
{
    value_at(message, tags::SENDING_TIME)?;
    let next = number_at(message, tags::NEW_SEQ_NO)?;
    if next <= number {
        return Err(session_reject_reason::VALUE_OUT_OF_RANGE);
    }
    gap_fill_flag_at(message)?;
    Ok(Meaning::GapFill(next))
}

/// What a new order says, its ids as they stand in the message.
#[derive(Clone, Copy)]
pub struct OrderTexts<'a> {
    pub id: &'a [u8],
    pub symbol: &'a [u8],
    pub side: Side,
    pub quantity: u32,
    pub price: i64,
    pub immediate: bool,
}

#[tactic(auto, unfolding(crate::specs::Table::new_order))]
#[inline(always)]
pub fn order_texts<'a>(message: &Message<'a>) -> Result<OrderTexts<'a>, u8>
    ensures ticket { ticket_behind result
        ≡ stamped message.now.frame.now (new_order message.now.frame.now) }
    ensures id { IfOk result (λ o. is_id o.id.now ≡ true) }
    ensures symbol { IfOk result (λ o. is_id o.symbol.now ≡ true) }
{
    value_at(message, tags::SENDING_TIME)?;
    let id = id_text_at(message, tags::CL_ORD_ID)?;
    let _handling = choice_at(message, tags::HANDL_INST, b"123")?;
    let symbol = id_text_at(message, tags::SYMBOL)?;
    let side = side_at(message)?;
    value_at(message, tags::TRANSACT_TIME)?;
    let quantity = quantity_at(message, tags::ORDER_QTY)?;
    let _limit_order = choice_at(message, tags::ORD_TYPE, b"2")?;
    let price = price_at(message, tags::PRICE)?;
    let immediate = is_immediate_at(message)?;
    Ok(OrderTexts {
        id,
        symbol,
        side,
        quantity,
        price,
        immediate,
    })
}

/// The order with these texts.
#[inline(always)]
pub fn ticket_of(texts: &OrderTexts) -> Ticket
    requires id { is_id texts.now.id.now ≡ true }
    requires symbol { is_id texts.now.symbol.now ≡ true }
    ensures { result ≡ ticket_of texts.now }
{
    Ticket {
        id: Id::of(texts.id),
        symbol: Id::of(texts.symbol),
        side: texts.side,
        quantity: texts.quantity,
        price: texts.price,
        immediate: texts.immediate,
    }
}

fn new_order(message: &Message) -> Result<Ticket, u8>
    ensures { result ≡ stamped message.now.frame.now (new_order message.now.frame.now) }
{
    match order_texts(message) {
        Ok(texts) => Ok(ticket_of(&texts)),
        Err(reason) => Err(reason),
    }
}

#[tactic(auto, unfolding(crate::specs::Table::cancel_request))]
fn cancel_request(message: &Message) -> Result<Meaning, u8>
    ensures { result ≡ stamped message.now.frame.now (cancel_request message.now.frame.now) }
{
    value_at(message, tags::SENDING_TIME)?;
    let original = Id::of(id_text_at(message, tags::ORIG_CL_ORD_ID)?);
    let id = Id::of(id_text_at(message, tags::CL_ORD_ID)?);
    let _symbol = id_text_at(message, tags::SYMBOL)?;
    let _side = side_at(message)?;
    value_at(message, tags::TRANSACT_TIME)?;
    Ok(Meaning::Says(Event::Cancel { id, original }))
}

/// The id of an order, and then all that a new order says.
#[tactic(auto, unfolding(crate::specs::Table::replace_request))]
fn replace_request(message: &Message) -> Result<Meaning, u8>
    ensures { result ≡ stamped message.now.frame.now (replace_request message.now.frame.now) }
{
    value_at(message, tags::SENDING_TIME)?;
    let original = Id::of(id_text_at(message, tags::ORIG_CL_ORD_ID)?);
    let ticket = new_order(message)?;
    Ok(Meaning::Says(Event::Replace { original, ticket }))
}

fn meaning_of_kind(kind: u8, message: &Message, number: u32) -> Result<Meaning, u8>
    ensures { result ≡ meaning_of_kind kind message.now.frame.now number }
{
    match kind {
        msg_types::HEARTBEAT => passed_over(message),
        msg_types::TEST_REQUEST => test_request(message),
        msg_types::RESEND_REQUEST => resend_request(message),
        msg_types::REJECT => passed_over(message),
        msg_types::SEQUENCE_RESET => sequence_reset(message, number),
        msg_types::NEW_ORDER_SINGLE => Ok(Meaning::Says(Event::New(new_order(message)?))),
        msg_types::ORDER_CANCEL_REQUEST => cancel_request(message),
        msg_types::ORDER_CANCEL_REPLACE_REQUEST => replace_request(message),
        _ => Err(session_reject_reason::INVALID_MSG_TYPE),
    }
}

/// What an accepted message with this number means, where it is neither the session's Logon nor a Logout; or the reason
/// to reject it.
pub fn meaning_of_message(message: &Message, number: u32) -> Result<Meaning, u8>
    ensures { result ≡ meaning_of_message message.now.frame.now number }
{
    match message.kind() {
        [] => Err(session_reject_reason::TAG_WITHOUT_VALUE),
        [kind] => meaning_of_kind(*kind, message, number),
        _ => Err(session_reject_reason::INVALID_MSG_TYPE),
    }
}
