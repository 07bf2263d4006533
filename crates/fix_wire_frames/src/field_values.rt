//! Values of fields that are one byte, under the names that FIX 4.2 gives them. Those of Side (tag 54) are
//! `spread_rules::codes::side`.

/// TimeInForce (tag 59).
pub const DAY: u8 = b'0';

pub const IMMEDIATE_OR_CANCEL: u8 = b'3';
