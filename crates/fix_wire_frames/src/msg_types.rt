//! The kinds of messages (MsgType, tag 35) that the host reads or writes, under the names that FIX 4.2 gives them.

pub const HEARTBEAT: u8 = b'0';

pub const TEST_REQUEST: u8 = b'1';

pub const RESEND_REQUEST: u8 = b'2';

pub const REJECT: u8 = b'3';

pub const SEQUENCE_RESET: u8 = b'4';

pub const LOGOUT: u8 = b'5';

pub const EXECUTION_REPORT: u8 = b'8';

pub const ORDER_CANCEL_REJECT: u8 = b'9';

pub const LOGON: u8 = b'A';

pub const NEW_ORDER_SINGLE: u8 = b'D';

pub const ORDER_CANCEL_REQUEST: u8 = b'F';

pub const ORDER_CANCEL_REPLACE_REQUEST: u8 = b'G';
