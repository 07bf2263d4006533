//! CxlRejReason (FIX 4.2, tag 102): why a cancel or a replace was refused.

/// The order no longer rests, or no less of it is filled than a replace wants.
pub const TOO_LATE: u8 = 0;
/// The session sent no order with that ClOrdID.
pub const UNKNOWN_ORDER: u8 = 1;
/// Broker option; here: a replace asks for what the order cannot become.
pub const BROKER_OPTION: u8 = 2;
