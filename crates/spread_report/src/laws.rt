//! Laws: what a session is sent is read back; a desk that goes on sends what the whole journal sends.
ghost use Rattle.std.specs.Prelude.{◌≡◌, ◌<◌, ◌≤◌, ◌∷◌, ◌++◌, [], List, ℕ, true, false, length};
ghost use Rattle.std.specs.List.{AllByRecursion, concat};
ghost use Rattle.fix_wire_frames.specs.Frames.{IsFrame, frames};
ghost use Rattle.spread_rules_ids.specs.declared.limits.TheConstants.{SESSIONS, MAX_MSG_SEQ_NUM};
ghost use Rattle.spread_rules_ids.specs.Ids.{is_id};
ghost use Rattle.spread_rules_rulebook.specs.Rulebook.{Rules};
ghost use Rattle.spread_report.specs.Outgoing.{AppliedEntry};
ghost use Rattle.spread_report_outbound.specs.code.Steps.{outbound_before_logon};
ghost use Rattle.spread_report_outbound.specs.Rows.{IsRow};
ghost use Rattle.spread_report.specs.code.PerSession.{entry_bytes, entry_texts, entry_outbound, entry_spends, outgoing_starting, messages_starting, spends_from};
ghost use Rattle.spread_report_outbound.specs.code.Sessions.{OutboundState, sessions_starting, session_text, outbound_at};
ghost use Rattle.spread_report.specs.Running.{HasSent, RunsOut};
ghost use Rattle.spread_report.specs.Ranges.{AreNames, EntryInRange};

/// What a session is sent is a row of whole frames, and is read back as exactly the messages that were written.
pub fn read_back()
    ensures joined { (next : ℕ) (rules : Rules) (stamp : List ℕ)
        (applied : List AppliedEntry) (s : ℕ) →
        next ≤ MAX_MSG_SEQ_NUM → is_id stamp ≡ true → AreNames rules →
        AllByRecursion (EntryInRange rules) applied →
        spends_from rules s (outbound_before_logon next) applied ≡ false →
        outgoing_starting next rules stamp applied s
        ≡ concat (messages_starting next rules stamp applied s) }
    ensures whole { (next : ℕ) (rules : Rules) (stamp : List ℕ)
        (applied : List AppliedEntry) (s : ℕ) →
        next ≤ MAX_MSG_SEQ_NUM → is_id stamp ≡ true → AreNames rules →
        AllByRecursion (EntryInRange rules) applied →
        spends_from rules s (outbound_before_logon next) applied ≡ false →
        AllByRecursion IsFrame (messages_starting next rules stamp applied s) }
    ensures read { (next : ℕ) (rules : Rules) (stamp : List ℕ)
        (applied : List AppliedEntry) (s : ℕ) →
        next ≤ MAX_MSG_SEQ_NUM → is_id stamp ≡ true → AreNames rules →
        AllByRecursion (EntryInRange rules) applied →
        spends_from rules s (outbound_before_logon next) applied ≡ false →
        frames (outgoing_starting next rules stamp applied s)
        ≡ messages_starting next rules stamp applied s }
{}

/// A desk that applies the entries of a journal one after the other has sent the journal's bytes: so it begins; an entry that
/// `outgoing` applies keeps it so, and so does one that it refuses; and where it refuses for want of numbers, the journal with this
/// entry needs a number above the limit.
pub fn running()
    ensures start { (rules : Rules) (stamp : List ℕ) (next : ℕ) (texts : List (List ℕ)) →
        length texts ≡ SESSIONS →
        ((s : ℕ) → s < SESSIONS → session_text texts s ≡ []) →
        HasSent rules stamp next [] (sessions_starting stamp next) texts }
    ensures more { (rules : Rules) (stamp : List ℕ) (next : ℕ) (applied : List AppliedEntry)
        (w : AppliedEntry) (desk after : OutboundState) (texts new : List (List ℕ)) →
        HasSent rules stamp next applied desk texts →
        after.stamp ≡ desk.stamp →
        length new ≡ SESSIONS →
        ((s : ℕ) → s < SESSIONS → session_text new s
        ≡ session_text texts s
        ++ entry_bytes desk.stamp rules s (outbound_at desk.sessions s) w) →
        ((s : ℕ) → s < SESSIONS →
        outbound_at after.sessions s ≡ entry_outbound rules s (outbound_at desk.sessions s) w) →
        ((s : ℕ) → s < SESSIONS →
        entry_spends rules s (outbound_at desk.sessions s) w ≡ false) →
        ((s : ℕ) → s < SESSIONS → IsRow
        (entry_texts desk.stamp rules s (outbound_at desk.sessions s) w)
        (entry_bytes desk.stamp rules s (outbound_at desk.sessions s) w)) →
        HasSent rules stamp next (applied ++ w ∷ []) after new }
    ensures same { (rules : Rules) (stamp : List ℕ) (next : ℕ) (applied : List AppliedEntry)
        (desk after : OutboundState) (texts new : List (List ℕ)) →
        HasSent rules stamp next applied desk texts →
        after ≡ desk →
        length new ≡ SESSIONS →
        ((s : ℕ) → s < SESSIONS → session_text new s ≡ session_text texts s) →
        HasSent rules stamp next applied after new }
    ensures spent { (rules : Rules) (stamp : List ℕ) (next : ℕ) (applied : List AppliedEntry)
        (w : AppliedEntry) (desk : OutboundState) (texts : List (List ℕ)) →
        HasSent rules stamp next applied desk texts →
        (r : RunsOut rules desk.sessions w) →
        spends_from rules r.session (outbound_before_logon next) (applied ++ w ∷ []) ≡ true }
{}
