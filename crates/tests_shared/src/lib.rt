//! What tests share: an allocator that refuses one request, choices by seed, and the samples of the worked examples.
#![tactic(auto)]

mod chance;
mod events;
mod messages;
mod refusing;
mod samples;

pub use chance::Chance;
pub use events::{first_logon, first_order};
pub use messages::{FIRST_BUY, FIRST_LOGON, FIRST_LOGOUT, FIRST_MESSAGES, FIRST_SELL};
pub use refusing::Refusing;
pub use samples::{
    FIRST_TRADE, FIRST_TRADE_JOURNAL, FIRST_TRADE_LINES, FIRST_TRADE_SENT, FIRST_TRADE_TEXT,
    THREE_MONTHS, id, is_first_sent, stamp,
};
