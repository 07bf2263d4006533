//! The commands and their words, as the help shows them.

/// What the value of a word is.
#[derive(Clone, Copy)]
pub enum Value {
    Text,
    /// Any number of 32 bits: what is too small or too large for the host is its own fault line.
    Number,
}

/// How a word is given.
#[derive(Clone, Copy)]
pub enum Form {
    Needed(Value),
    /// One text or more.
    List,
    /// An option, whose value has this name in the help.
    Option {
        value: Value,
        value_name: &'static str,
        default: &'static str,
    },
    Flag,
}

/// A word that a command asks for, or an option of it.
#[derive(Clone, Copy)]
pub struct Word {
    pub name: &'static str,
    pub help: &'static str,
    pub form: Form,
}

/// A command: its name, what its help says it does, and its words in their order.
pub struct CommandText {
    pub name: &'static str,
    pub about: &'static str,
    pub words: &'static [Word],
}

const RULES: Word = Word {
    name: "RULES",
    help: "The rulebook: a line `tick N`, a line `month NAME REFERENCE` for each month in order of expiry, \
           and lines `pair NEAR FAR on` or `pair NEAR FAR off`",
    form: Form::Needed(Value::Text),
};

const SESSIONS: Word = Word {
    name: "SESSION",
    help: "A file of raw bytes for each session, session 0 first",
    form: Form::List,
};

const JOURNAL: Word = Word {
    name: "JOURNAL",
    help: "A journal text, as `replay` writes it",
    form: Form::Needed(Value::Text),
};

const CLAIM: Word = Word {
    name: "CLAIM",
    help: "The lines of fills and month totals that somebody claims, as `check` writes them",
    form: Form::Needed(Value::Text),
};

const PLACE: Word = Word {
    name: "PLACE",
    help: "The entry's place in the journal, counted from 1",
    form: Form::Needed(Value::Number),
};

const PHASE: Word = Word {
    name: "PHASE",
    help: "scan, judge, threads or slices, over a file of raw bytes for each session; \
           match or report, over a rulebook and a journal text",
    form: Form::Needed(Value::Text),
};

const FILES: Word = Word {
    name: "FILE",
    help: "The files of the phase",
    form: Form::List,
};

const STAMP: Word = Word {
    name: "stamp",
    help: "The sending time that outgoing messages bear, 1 to 32 bytes",
    form: Form::Option {
        value: Value::Text,
        value_name: "TEXT",
        default: "20260105-14:30:00",
    },
};

const RING: Word = Word {
    name: "ring",
    help: "How many items each ring between two threads has room for, 1 to 4096",
    form: Form::Option {
        value: Value::Number,
        value_name: "N",
        default: "256",
    },
};

const ENTRIES: Word = Word {
    name: "entries",
    help: "How many entries the journal has room for, at most 1000000",
    form: Form::Option {
        value: Value::Number,
        value_name: "N",
        default: "100000",
    },
};

const JOURNAL_ONLY: Word = Word {
    name: "journal-only",
    help: "Write the journal text alone",
    form: Form::Flag,
};

pub static COMMANDS: &[CommandText] = &[
    CommandText {
        name: "replay",
        about: "Reads day lines from standard input, and writes the journal, fills, outgoing messages and month totals",
        words: &[RULES, STAMP, JOURNAL_ONLY],
    },
    CommandText {
        name: "live",
        about: "Runs a thread for each session's file, and writes what `replay` writes",
        words: &[RULES, SESSIONS, STAMP, RING, ENTRIES],
    },
    CommandText {
        name: "check",
        about: "Reads a journal text, works it again, and writes its fills and month totals",
        words: &[RULES, JOURNAL],
    },
    CommandText {
        name: "audit",
        about: "Says whether a claim is exactly the fills and month totals of a journal, or the first line that is another",
        words: &[RULES, JOURNAL, CLAIM],
    },
    CommandText {
        name: "explain",
        about: "Says in words why an entry of a journal came to what it came to",
        words: &[RULES, JOURNAL, PLACE],
    },
    CommandText {
        name: "draw",
        about: "Draws the day of a journal, prices and fills over places, as an SVG picture",
        words: &[RULES, JOURNAL],
    },
    CommandText {
        name: "bench",
        about: "Measures how fast a phase of the host works over recorded input",
        words: &[PHASE, FILES],
    },
];
