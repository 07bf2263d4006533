//! OrdStatus (FIX 4.2, tag 39), and ExecType (tag 150), which bears the same codes here.

pub const NEW: u8 = 0;

pub const PARTIALLY_FILLED: u8 = 1;

pub const FILLED: u8 = 2;

pub const CANCELED: u8 = 4;

pub const REPLACED: u8 = 5;

pub const REJECTED: u8 = 8;
