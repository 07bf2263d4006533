//! Laws of gateways: what a session has left to say through its steps.
ghost use Rattle.std.specs.Prelude.{◌≡◌, ◌<◌, ◌-◌, length, min, List, [], ◌∷◌, ◌++◌, ℕ, true, false};
ghost use Rattle.std.specs.List.{list_any, cons_option};
ghost use Rattle.spread_rules.specs.declared.codes.close_reason.TheConstants.{STREAM_ENDED};
ghost use Rattle.spread_rules.specs.declared.event.Event.TheVariants.{Close};
ghost use Rattle.spread_rules.specs.Journal.{is_close};
ghost use Rattle.fix_wire_frames.specs.Frames.{frames};
ghost use Rattle.fix_session_judging.specs.declared.session.Session.{Session};
ghost use Rattle.fix_session_judging.specs.Steps.{new_session, judge, event_in, is_closed};
ghost use Rattle.fix_session_judging.specs.Streams.{whole};
ghost use Rattle.fix_wire_framer.specs.Pieces.{SplitsInto, IsDrained};
ghost use Rattle.fix_wire_framer.specs.declared.framer.TheConstants.{BUFFER_BYTES};
ghost use Rattle.gate_link_sessions.specs.Owed.{events_left};
ghost use Rattle.gate_link_sessions.specs.declared.gateway.TheConstants.{MAX_SLICE};

use fix_session_judging::laws::judged;

/// What a session has left to say, whatever bytes follow: at first all events of its stream, nothing once it is closed. Bytes that
/// are put and bytes that are skipped leave it as it is, a message that is passed takes away just the event that it says,
/// and where no message stands at the end of the stream, the close at the end of a stream is left. All events of a stream have a close among them.
pub fn owed()
    ensures starts { (stream : List ℕ) → events_left new_session [] stream ≡ whole stream }
    ensures closed { (s : Session) (held more : List ℕ) → is_closed s ≡ true →
        events_left s held more ≡ [] }
    ensures put { (s : Session) (held piece more : List ℕ) →
        events_left s (held ++ piece) more ≡ events_left s held (piece ++ more) }
    ensures skipped { (s : Session) (a b : List ℕ) → SplitsInto a [] b → (more : List ℕ) →
        events_left s b more ≡ events_left s a more }
    ensures passed { (s : Session) (message a b : List ℕ) → SplitsInto a (message ∷ []) b →
        (more : List ℕ) →
        cons_option (event_in (judge s message).0) (events_left (judge s message).1 b more)
        ≡ events_left s a more }
    ensures ended { (s : Session) (held : List ℕ) → is_closed s ≡ false → frames held ≡ [] →
        events_left s held [] ≡ Close STREAM_ENDED ∷ [] }
    ensures closes { (stream : List ℕ) → list_any is_close (whole stream) ≡ true }
{
    judged();
}

/// Where a gateway needs more bytes, `put` takes at least one of a piece that isn't empty.
pub fn takes_more()
    ensures { (held piece : List ℕ) → IsDrained held → 0 < length piece →
        0 < min (length piece) (BUFFER_BYTES - length held) }
{}

/// How many messages a session steps on together at most.
pub fn slice_size()
    ensures { MAX_SLICE ≡ 64 }
{}
