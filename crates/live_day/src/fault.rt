//! Why threads gave no day.
ghost use Rattle.std.specs.Prelude.{◌≡◌};
ghost use Rattle.live_day.specs.code.Making.{of_apply};

use apply_market::ApplyFault;
use gate_link::LinkFault;

/// Why threads gave no day.
#[derive(Clone, Copy, PartialEq, Eq)]
pub enum ThreadsFault {
    /// The link of gateways and sequencer was refused.
    Link(LinkFault),
    /// A thread could not be started: a session's has the session's number, the matching thread the number of sessions,
    /// and the writer's of session s the number of sessions + 1 + s.
    Spawn(u8),
    /// The journal has its stated size, and there is more to enter.
    JournalFull,
    /// Memory ran out. The place is that of the first entry not worked through, 0 where none was begun; where a writer
    /// found none it is one more than the number of entries worked through.
    NoMemory(u64),
    /// A message of the entry of this place would bear a number above 999,999,999.
    NumbersSpent(u64),
}

/// The fault of the day whose matching thread had this one.
pub fn of_apply(fault: ApplyFault) -> ThreadsFault
    ensures { result ≡ of_apply fault }
{
    match fault {
        ApplyFault::NoMemory(place) => ThreadsFault::NoMemory(place),
        ApplyFault::NumbersSpent(place) => ThreadsFault::NumbersSpent(place),
    }
}
