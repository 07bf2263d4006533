//! Bytes that have a name: SOH, which no character shows, and those of ASCII that the definitions of texts speak of.

/// Ends each field of a message.
pub const SOH: u8 = 1;

/// Ends each line.
pub const LINE_FEED: u8 = b'\n';

pub const SPACE: u8 = b' ';

pub const NUMBER_SIGN: u8 = b'#';

pub const HYPHEN_MINUS: u8 = b'-';

/// The decimal point.
pub const POINT: u8 = b'.';

/// The other digits follow it.
pub const DIGIT_ZERO: u8 = b'0';

pub const COLON: u8 = b':';

pub const EQUALS: u8 = b'=';

pub const VERTICAL_BAR: u8 = b'|';
