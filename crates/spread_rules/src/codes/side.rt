//! Side (FIX 4.2, tag 54), as the byte that texts bear.

pub const BUY: u8 = b'1';

pub const SELL: u8 = b'2';
