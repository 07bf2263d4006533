//! SessionRejectReason (FIX 4.2, tag 373): why a message of a running session was refused.

pub const REQUIRED_TAG_MISSING: u8 = 1;

pub const TAG_WITHOUT_VALUE: u8 = 4;

pub const VALUE_OUT_OF_RANGE: u8 = 5;

pub const INCORRECT_FORMAT: u8 = 6;

pub const INVALID_MSG_TYPE: u8 = 11;
