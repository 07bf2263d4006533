//! Laws of sessions: what a session says message by message is what the places of the finished list say.
ghost use Rattle.std.specs.Prelude.{◌≡◌, List, ℕ, [], ◌∷◌, ◌++◌, cond, true, false};
ghost use Rattle.std.specs.List.{All, cons_option};
ghost use Rattle.spread_rules.specs.declared.codes.close_reason.TheConstants.{STREAM_ENDED};
ghost use Rattle.spread_rules.specs.declared.event.Event.{Event};
ghost use Rattle.spread_rules.specs.declared.event.Event.TheVariants.{Close};
ghost use Rattle.spread_rules.specs.Journal.{FitsEvent, is_in_order};
ghost use Rattle.fix_session_judging.specs.declared.session.Session.{Session};
ghost use Rattle.fix_session_judging.specs.declared.session.Verdict.TheVariants.{Nothing};
ghost use Rattle.fix_wire_frames.specs.Frames.{frames};
ghost use Rattle.fix_session_judging.specs.Streams.{events, whole};
ghost use Rattle.fix_session_judging.specs.code.Streams.{stays_open_of, events_of, whole_of};
ghost use Rattle.fix_session_judging.specs.Steps.{new_session, judge, ended, is_closed, is_closing, event_in, events_said, session_after, events_at_end};

/// A new session that judges the messages of a list one after another says the events of the list's places. Where it
/// then ends, it says all of them: Close 5 too, if no place closes. So it is for the messages of a stream of bytes.
pub fn judged()
    ensures frames { (fs : List (List ℕ)) → events_said new_session fs ≡ events_of fs }
    ensures whole_frames { (fs : List (List ℕ)) →
        events_said new_session fs ++ events_at_end (session_after new_session fs) ≡ whole_of fs }
    ensures events { (stream : List ℕ) → events_said new_session (frames stream) ≡ events stream }
    ensures whole { (stream : List ℕ) → events_said new_session (frames stream)
        ++ events_at_end (session_after new_session (frames stream)) ≡ whole stream }
{}

/// What a session says to a list and then to a message, or to further messages, and the session after them.
pub fn said_after()
    ensures one { (s : Session) (fs : List (List ℕ)) (f : List ℕ) → events_said s (fs ++ f ∷ [])
        ≡ events_said s fs ++ cons_option (event_in (judge (session_after s fs) f).0) [] }
    ensures after_one { (s : Session) (fs : List (List ℕ)) (f : List ℕ) →
        session_after s (fs ++ f ∷ []) ≡ (judge (session_after s fs) f).1 }
    ensures events { (s : Session) (fs gs : List (List ℕ)) →
        events_said s (fs ++ gs) ≡ events_said s fs ++ events_said (session_after s fs) gs }
    ensures after { (s : Session) (fs gs : List (List ℕ)) →
        session_after s (fs ++ gs) ≡ session_after (session_after s fs) gs }
{}

/// After messages a session has a Close 5 to say at its end exactly where no place of them closes.
pub fn closed_after()
    ensures { (fs : List (List ℕ)) → events_at_end (session_after new_session fs)
        ≡ cond (stays_open_of fs) (Close STREAM_ENDED ∷ []) [] }
{}

/// A session that is open closes exactly with a Close, and once closed it says nothing and stays as it is.
pub fn closes_once()
    ensures open { (s : Session) (f : List ℕ) → is_closed s ≡ false →
        is_closed (judge s f).1 ≡ is_closing (judge s f).0 }
    ensures closed { (s : Session) (f : List ℕ) → is_closed s ≡ true → judge s f ≡ (Nothing, s) }
    ensures ended { (s : Session) → is_closed (ended s).1 ≡ true }
{}

/// The events of a stream are in the ranges of a journal's entries and in the order of a session's entries: a Logon or a
/// Close first, no second Logon, nothing after a Close. So is every beginning of them.
pub fn lawful()
    ensures fits { (stream : List ℕ) → All FitsEvent (whole stream) }
    ensures fits_so_far { (stream : List ℕ) → All FitsEvent (events stream) }
    ensures ordered { (stream : List ℕ) → is_in_order (whole stream) ≡ true }
    ensures ordered_so_far { (stream : List ℕ) → is_in_order (events stream) ≡ true }
    ensures beginnings { (stream : List ℕ) (xs ys : List Event) → xs ++ ys ≡ whole stream →
        is_in_order xs ≡ true }
{}
