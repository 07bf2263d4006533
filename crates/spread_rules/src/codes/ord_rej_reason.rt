//! OrdRejReason (FIX 4.2, tag 103): why a new order was refused.

/// The price is no multiple of the tick. FIX calls this code "broker option".
pub const OFF_TICK: u8 = 0;

pub const UNKNOWN_SYMBOL: u8 = 1;
/// The quantity lies outside the limits of orders.
pub const EXCEEDS_LIMIT: u8 = 3;
/// The session has used the ClOrdID before.
pub const DUPLICATE_ORDER: u8 = 6;
