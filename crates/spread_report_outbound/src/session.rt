//! The outbound side of a session.
use spread_rules_ids::Id;

/// The CompIDs of a session: it calls itself `client` and the exchange `host`.
#[derive(Clone, Copy)]
pub struct CompIds {
    pub client: Id,
    pub host: Id,
}

/// What the next message to a session bears. Contracts see each session as one; the code keeps the numbers of all sessions
/// in one array and their CompIDs in another, and makes no value of this type.
#[derive(Clone, Copy)]
pub struct OutboundSession {
    /// Its number (MsgSeqNum, tag 34).
    pub next: u64,
    /// None before the session's Logon.
    pub comp_ids: Option<CompIds>,
}
