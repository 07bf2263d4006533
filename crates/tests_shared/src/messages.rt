//! The four messages of the first trade.

/// A client's Logon.
pub const FIRST_LOGON: &[u8] =
    b"8=FIX.4.2\x019=57\x0135=A\x0134=1\x0149=C1\x0152=20260105-14:30:00\x0156=HOST\x0198=0\x01108=30\x0110=220\x01";

/// Its order to sell.
pub const FIRST_SELL: &[u8] =
    b"8=FIX.4.2\x019=104\x0135=D\x0134=2\x0149=C1\x0152=20260105-14:30:00\x0156=HOST\x0111=a\x0121=1\x0155=H6\x0154=2\x0160=20260105-14:30:00\x0138=5\x0140=2\x0144=100\x0110=168\x01";

/// Its order to buy.
pub const FIRST_BUY: &[u8] =
    b"8=FIX.4.2\x019=104\x0135=D\x0134=3\x0149=C1\x0152=20260105-14:30:00\x0156=HOST\x0111=b\x0121=1\x0155=H6\x0154=1\x0160=20260105-14:30:00\x0138=5\x0140=2\x0144=100\x0110=169\x01";

/// Its Logout.
pub const FIRST_LOGOUT: &[u8] =
    b"8=FIX.4.2\x019=45\x0135=5\x0134=4\x0149=C1\x0152=20260105-14:30:00\x0156=HOST\x0110=183\x01";

/// All four, in order.
pub const FIRST_MESSAGES: [&[u8]; 4] = [FIRST_LOGON, FIRST_SELL, FIRST_BUY, FIRST_LOGOUT];
