//! The fault lines and the statuses, as the manual has them.
use bench::BenchFault;
use draw_day::DrawFault;
use explain_day::ExplainFault;
use gate_link_stages::LinkFault;
use spread_host_faults::HostFault;
use spread_journal::JournalFault;
use spread_rules::RuleFault;
use std::fmt;

/// Why the program ended without its text.
#[derive(Clone, Copy)]
pub enum Fault<'a> {
    /// The stamp is empty, too long, or has a byte 1.
    Stamp,
    /// A file could not be read.
    File(&'a str),
    /// The run ended without its text.
    Host(HostFault),
    /// A claim is not what the rule gives the journal. Its first wrong line was told when it was found.
    Claim,
    /// The journal has no entry of this place.
    Place(u32),
    /// There is no such phase to measure over so many files.
    Phase,
    /// The clock failed.
    Clock,
}

/// What a fault line ends with.
enum Detail<'a> {
    Nothing,
    Number(u64),
    Name(&'a str),
}

impl<'a> From<HostFault> for Fault<'a> {
    fn from(fault: HostFault) -> Fault<'a> {
        Fault::Host(fault)
    }
}

impl<'a> From<DrawFault> for Fault<'a> {
    fn from(fault: DrawFault) -> Fault<'a> {
        Fault::Host(match fault {
            DrawFault::Journal(fault) => HostFault::Journal(fault),
            DrawFault::NoMemory => HostFault::NoMemory(0),
            DrawFault::Write => HostFault::Write,
        })
    }
}

impl<'a> From<BenchFault> for Fault<'a> {
    fn from(fault: BenchFault) -> Fault<'a> {
        Fault::Host(match fault {
            BenchFault::Phase => return Fault::Phase,
            BenchFault::Clock => return Fault::Clock,
            BenchFault::Rule(fault) => HostFault::Rule(fault),
            BenchFault::Journal(fault) => HostFault::Journal(fault),
            BenchFault::NumbersSpent(place) => HostFault::NumbersSpent(place),
            BenchFault::NoMemory => HostFault::NoMemory(0),
        })
    }
}

impl<'a> Fault<'a> {
    /// Why the entry of a place was not explained.
    pub fn of_explain(fault: ExplainFault, place: u32) -> Fault<'a> {
        Fault::Host(match fault {
            ExplainFault::Place => return Fault::Place(place),
            ExplainFault::Journal(fault) => HostFault::Journal(fault),
            ExplainFault::NoMemory => HostFault::NoMemory(0),
            ExplainFault::Write => HostFault::Write,
        })
    }

    /// The exit status.
    fn status(&self) -> u8 {
        match self {
            Fault::Stamp | Fault::Phase => 2,
            Fault::File(_) => 3,
            Fault::Host(fault) => host_status(fault),
            Fault::Claim | Fault::Place(_) => 5,
            Fault::Clock => 7,
        }
    }

    /// The fault line, and what follows it after a space.
    fn line(&self) -> (&'static str, Detail<'a>) {
        match self {
            Fault::Stamp => ("stamp", Detail::Nothing),
            Fault::File(path) => ("cannot read", Detail::Name(path)),
            Fault::Host(fault) => host_line(fault),
            Fault::Claim => ("wrong claim", Detail::Nothing),
            Fault::Place(place) => ("no place", Detail::Number(*place as u64)),
            Fault::Phase => ("no such phase over these files", Detail::Nothing),
            Fault::Clock => ("no clock", Detail::Nothing),
        }
    }
}

fn host_status(fault: &HostFault) -> u8 {
    match fault {
        HostFault::Read => 3,
        HostFault::Rule(RuleFault::NoMemory) => 6,
        HostFault::Rule(_) => 4,
        HostFault::DayLine(_) => 5,
        HostFault::Journal(JournalFault::NoMemory) => 6,
        HostFault::Journal(JournalFault::Write) => 8,
        HostFault::Journal(_) => 5,
        HostFault::NoMemory(_) => 6,
        HostFault::Link(LinkFault::NoMemory) => 6,
        HostFault::Link(_) => 7,
        HostFault::JournalFull | HostFault::NumbersSpent(_) | HostFault::Spawn(_) => 7,
        HostFault::Write => 8,
    }
}

impl<'a> fmt::Display for Fault<'a> {
    fn fmt<W: fmt::Write>(&self, f: &mut fmt::Formatter<W>) -> fmt::Result {
        let (text, detail) = self.line();
        match detail {
            Detail::Nothing => f.write_str(text),
            Detail::Number(number) => write!(f, "{} {}", text, number),
            Detail::Name(name) => write!(f, "{} {}", text, name),
        }
    }
}

fn host_line<'a>(fault: &HostFault) -> (&'static str, Detail<'a>) {
    match fault {
        HostFault::DayLine(line) => ("day line", Detail::Number(*line as u64)),
        HostFault::Rule(fault) => rule_line(fault),
        HostFault::Link(LinkFault::NoMemory) => ("no memory", Detail::Nothing),
        HostFault::Link(fault) => ("link", Detail::Number(fault.number() as u64)),
        HostFault::Spawn(session) => ("thread", Detail::Number(*session as u64)),
        HostFault::JournalFull => ("journal full", Detail::Nothing),
        HostFault::NoMemory(_) => ("no memory", Detail::Nothing),
        HostFault::Read => ("cannot read input", Detail::Nothing),
        HostFault::Write => ("cannot write", Detail::Nothing),
        HostFault::NumbersSpent(_) => ("numbers spent", Detail::Nothing),
        HostFault::Journal(fault) => journal_line(fault),
    }
}

fn rule_line<'a>(fault: &RuleFault) -> (&'static str, Detail<'a>) {
    match fault {
        RuleFault::BadLine(line) => ("rules: bad line", Detail::Number(*line as u64)),
        RuleFault::NoMonth => ("rules: no month", Detail::Nothing),
        RuleFault::TooManyMonths => ("rules: too many months", Detail::Nothing),
        RuleFault::NamedTwice => ("rules: named twice", Detail::Nothing),
        RuleFault::NoMemory => ("no memory", Detail::Nothing),
    }
}

fn journal_line<'a>(fault: &JournalFault) -> (&'static str, Detail<'a>) {
    match fault {
        JournalFault::Version => ("journal version", Detail::Nothing),
        JournalFault::Line(line) => ("journal line", Detail::Number(*line as u64)),
        JournalFault::Order(line) => ("journal order", Detail::Number(*line as u64)),
        JournalFault::Cut => ("journal cut", Detail::Nothing),
        JournalFault::Write => ("cannot write", Detail::Nothing),
        JournalFault::NoMemory => ("no memory", Detail::Nothing),
    }
}

/// Says why there is no text, where that is not said yet, and gives the status.
pub fn tell(rt: &impl Eprint, fault: Fault<'_>) -> u8 {
    if !matches!(fault, Fault::Claim) {
        let _ = eprintln!(rt; "exchange: {}", fault);
    }
    fault.status()
}
