//! Laws of links: what every schedule keeps. What a session has left to say is told by the gateways' laws.
ghost use Rattle.std.specs.Prelude.{◌≡◌, ℕ, ◌<◌, List, ◌∷◌, ◌++◌};
ghost use Rattle.spread_rules.specs.declared.event.Event.{Event};
ghost use Rattle.spread_rules.specs.Journal.{restricted};
ghost use Rattle.fix_session_judging.specs.Streams.{whole};
ghost use Rattle.gate_link.specs.Schedules.{ScheduleStep, send, take, ScheduleState, no_events, Leads, IsClosed, IsInOrder, in_a_row, SentTogether, TakenTogether};

pub use gate_link_sessions::laws::{owed, takes_more};

/// In every schedule, of each session the journal has a beginning of what was sent, in its order, and that is a
/// beginning of all its events. Once all were sent and taken, the three are equal.
pub fn schedule()
    ensures order { (stream : ℕ → List ℕ) (steps : List ScheduleStep) (b : ScheduleState) →
        Leads stream no_events steps b → IsInOrder stream b }
    ensures closed { (stream : ℕ → List ℕ) (steps : List ScheduleStep) (b : ScheduleState) (n s : ℕ) →
        Leads stream no_events steps b → IsClosed stream n b → s < n →
        (restricted s b.journal ≡ b.sent s) × (b.sent s ≡ whole (stream s)) }
{}

/// A slice is as many steps in a row: the next events of a session that are sent together, and the first events not yet
/// taken that join the journal together.
pub fn slices()
    ensures sent { (stream : ℕ → List ℕ) (a b : ScheduleState) (s : ℕ) (e : Event)
        (es rest : List Event) →
        whole (stream s) ≡ a.sent s ++ (e ∷ (es ++ rest)) → SentTogether s (e ∷ es) a b →
        Leads stream a (in_a_row (send s) (e ∷ es)) b }
    ensures taken { (stream : ℕ → List ℕ) (a b : ScheduleState) (s : ℕ) (e : Event)
        (es rest : List Event) →
        a.sent s ≡ restricted s a.journal ++ (e ∷ (es ++ rest)) → TakenTogether s (e ∷ es) a b →
        Leads stream a (in_a_row (take s) (e ∷ es)) b }
{}
