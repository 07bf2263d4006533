//! Who sends the messages of a session, to whom, and at what time: spelled once for all of them.
ghost use Rattle.fix_wire.specs.Layout.{SpellsParties};

use crate::spelling::put_id;
use fix_wire_values::{put, put_byte};
use spread_rules_ids::Id;
use spread_rules_ids::bytes::SOH;

/// The greatest length of the three fields.
pub const MAX_PARTIES_LENGTH: usize = 108;

/// Room for them, and for what stands behind an id.
pub(crate) const PARTIES_ROOM: usize = 112;

/// SenderCompID, SendingTime and TargetCompID (tags 49, 52 and 56) as they are written. A message takes one copy of them.
#[derive(Clone, Copy)]
pub struct SpelledParties {
    pub(crate) bytes: [u8; PARTIES_ROOM],
    pub(crate) len: usize,
}

impl SpelledParties {
    /// Spells them, in the order of the standard header: from whom, at what time, and to whom.
    pub fn new(sender: &Id, target: &Id, stamp: &Id) -> SpelledParties
        ensures { SpellsParties result sender.now target.now stamp.now }
    {
        let mut bytes = [0; PARTIES_ROOM];
        let from = put(&mut bytes, 0, b"49=");
        let time = put_id(&mut bytes, from, sender);
        let at = put(&mut bytes, time, b"\x0152=");
        let to = put_id(&mut bytes, at, stamp);
        let whom = put(&mut bytes, to, b"\x0156=");
        let end = put_id(&mut bytes, whom, target);
        let len = put_byte(&mut bytes, end, SOH);
        SpelledParties { bytes, len }
    }
}
