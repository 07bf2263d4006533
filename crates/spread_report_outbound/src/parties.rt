//! The CompIDs of the sessions, spelled for their messages.
ghost use Rattle.std.specs.Prelude.{◌≡◌, Some, length};
ghost use Rattle.fix_wire.specs.Layout.{SpellsParties};
ghost use Rattle.spread_report_outbound.specs.code.OutboundFields.{AreSpelled};

use crate::session::CompIds;
use fix_wire::SpelledParties;
use spread_rules_ids::Id;
use spread_rules_ids::limits::SESSIONS;

/// The CompIDs of a session, if it has them, and the stamp, spelled.
pub fn spelled_parties(comp_ids: &Option<CompIds>, stamp: &Id) -> SpelledParties
    ensures { (ids : CompIds) → comp_ids.now ≡ Some ids
        → SpellsParties result ids.host ids.client stamp.now }
{
    match comp_ids {
        None => SpelledParties::new(stamp, stamp, stamp),
        Some(ids) => SpelledParties::new(&ids.host, &ids.client, stamp),
    }
}

/// Spells those of all sessions.
pub fn spell_parties(
    parties: &mut [SpelledParties; SESSIONS],
    comp_ids: &[Option<CompIds>; SESSIONS],
    stamp: &Id,
)
    ensures size { length parties.new ≡ SESSIONS }
    ensures spelled { AreSpelled stamp.now comp_ids.now parties.new }
{
    for s in 0..SESSIONS {
        parties[s] = spelled_parties(&comp_ids[s], stamp);
    }
}
