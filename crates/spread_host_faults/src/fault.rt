//! Why a run ended without its day.
ghost use Rattle.std.specs.Prelude.{◌≡◌};
ghost use Rattle.spread_host_faults.specs.Faults.{number_of, of_apply, of_lines, of_text, of_threads};

use apply_market::ApplyFault;
use gate_link_stages::LinkFault;
use intake_lines::LinesFault;
use live_day::ThreadsFault;
use spread_journal::JournalFault;
use spread_rules_rulebook::RuleFault;
use text_day::TextFault;
use thiserror::Error;

/// Why a run ended without its day.
#[derive(Clone, Copy, Debug, PartialEq, Eq, Error)]
pub enum HostFault {
    /// The first bad day line, counted from 1.
    #[error("day line {0}")]
    DayLine(u64),
    /// The rulebook was refused.
    #[error("rules: {0}")]
    Rule(RuleFault),
    /// The link of gateways and sequencer was refused.
    #[error("link: {0}")]
    Link(LinkFault),
    /// A thread could not be started: a session's has the session's number, the matching thread the number of sessions,
    /// and the writer's of session s the number of sessions + 1 + s.
    #[error("thread {0}")]
    Spawn(u8),
    /// The journal has its stated size, and there is more to enter.
    #[error("journal full")]
    JournalFull,
    /// Memory ran out. The place is that of the first entry not worked through: 0 where none was begun, one more than the
    /// journal's length where all were; where a session's writer found none, one more than the number of entries worked
    /// through.
    #[error("no memory")]
    NoMemory(u64),
    /// The reader failed, or gave too much.
    #[error("cannot read input")]
    Read,
    /// The writer failed.
    #[error("cannot write")]
    Write,
    /// A message of the entry of this place would bear a number above 999,999,999.
    #[error("numbers spent")]
    NumbersSpent(u64),
    /// The journal text was refused.
    #[error("{0}")]
    Journal(JournalFault),
}

impl HostFault {
    /// A number for each fault, 1 to 10, for callers of the library. The program's statuses are exchange_faults' own.
    pub fn number(&self) -> u8
        ensures { result ≡ number_of self.now }
    {
        match self {
            HostFault::DayLine(_) => 1,
            HostFault::Rule(_) => 2,
            HostFault::Link(_) => 3,
            HostFault::Spawn(_) => 4,
            HostFault::JournalFull => 5,
            HostFault::NoMemory(_) => 6,
            HostFault::Read => 7,
            HostFault::Write => 8,
            HostFault::NumbersSpent(_) => 9,
            HostFault::Journal(_) => 10,
        }
    }
}

/// Want of memory for day lines comes before any entry is begun.
impl From<LinesFault> for HostFault {
    ghost from_gives = { λ lines f. f ≡ of_lines lines };

    fn from(lines: LinesFault) -> HostFault {
        match lines {
            LinesFault::Read => HostFault::Read,
            LinesFault::BadLine(line) => HostFault::DayLine(line),
            LinesFault::JournalFull => HostFault::JournalFull,
            LinesFault::NoMemory => HostFault::NoMemory(0),
        }
    }
}

impl From<ThreadsFault> for HostFault {
    ghost from_gives = { λ threads f. f ≡ of_threads threads };

    fn from(threads: ThreadsFault) -> HostFault {
        match threads {
            ThreadsFault::Link(fault) => HostFault::Link(fault),
            ThreadsFault::Spawn(session) => HostFault::Spawn(session),
            ThreadsFault::JournalFull => HostFault::JournalFull,
            ThreadsFault::NoMemory(place) => HostFault::NoMemory(place),
            ThreadsFault::NumbersSpent(place) => HostFault::NumbersSpent(place),
        }
    }
}

impl From<ApplyFault> for HostFault {
    ghost from_gives = { λ applied f. f ≡ of_apply applied };

    fn from(applied: ApplyFault) -> HostFault {
        match applied {
            ApplyFault::NoMemory(place) => HostFault::NoMemory(place),
            ApplyFault::NumbersSpent(place) => HostFault::NumbersSpent(place),
        }
    }
}

/// Want of memory for the lines of fills has place 0; that for the text of a whole day has another.
impl From<TextFault> for HostFault {
    ghost from_gives = { λ text f. f ≡ of_text text };

    fn from(text: TextFault) -> HostFault {
        match text {
            TextFault::NoMemory => HostFault::NoMemory(0),
            TextFault::Write => HostFault::Write,
        }
    }
}
