//! Why a session closed (docs/PROFILE.md, "Sessions").

/// The client sent a Logout.
pub const LOGOUT: u8 = 1;
/// A message that is no duplicate had a MsgSeqNum below the due one.
pub const MSG_SEQ_NUM_TOO_LOW: u8 = 2;
/// The first message was no lawful Logon.
pub const NO_LOGON: u8 = 3;
/// A message had other CompIDs than the Logon.
pub const COMP_ID: u8 = 4;
/// The stream ended with no Logout.
pub const STREAM_ENDED: u8 = 5;
