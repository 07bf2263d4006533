//! What the host holds at most: the table "Limits" of docs/PROFILE.md, line by line.

/// Sessions are numbered from 0, so the last is 15.
pub const SESSIONS: usize = 16;
/// Months of a rulebook, at least 1.
pub const MAX_MONTHS: u8 = 24;
/// Letters and digits of a month's name, at least 1.
pub const MAX_NAME_LENGTH: usize = 15;
/// The tick, in hundredths, at least 1.
pub const MAX_TICK: i64 = 1_000_000;
/// Bytes of an id, a CompID, a symbol or a sending time, at least 1.
pub const MAX_ID_LENGTH: usize = 32;
/// Quantities and heartbeat intervals as messages and journals may have them, from 0.
pub const MAX_NUMBER: u32 = 999_999_999;
/// The least MsgSeqNum.
pub const FIRST_MSG_SEQ_NUM: u32 = 1;
/// The greatest MsgSeqNum.
pub const MAX_MSG_SEQ_NUM: u32 = 999_999_999;
/// The least BodyLength.
pub const MIN_BODY_LENGTH: usize = 5;
/// The greatest BodyLength.
pub const MAX_BODY_LENGTH: usize = 4_096;
/// Lots of an order, from 1.
pub const MAX_ORDER_QTY: u32 = 999_999;
/// The price of an order, either way from 0, in hundredths.
pub const MAX_PRICE: i64 = 1_000_000_000;
/// The price of a spread's leg, either way from 0, in hundredths.
pub const MAX_LEG_PRICE: i64 = 2_000_000_000;
/// Entries of a journal.
pub const MAX_JOURNAL_ENTRIES: usize = 1_000_000;
/// Events that wait in a session's ring, at least 1.
pub const MAX_RING: usize = 4_096;
/// Bytes of an input that is read to its end: 16 MiB.
pub const MAX_INPUT_BYTES: usize = 16_777_216;
