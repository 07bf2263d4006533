//! Day lines: the text that `replay` reads.
//!
//! Each line is a session's number, a colon, and bytes of its stream, in which `|` stands for SOH.
//! Empty lines and lines that begin with `#` are passed over.
ghost use Rattle.std.specs.Prelude.{◌≡◌, ◌<◌, option_map, IfSome};
ghost use Rattle.spread_rules_ids.specs.declared.limits.TheConstants.{SESSIONS};
ghost use Rattle.fix_wire_frames.specs.Texts.{with_soh};
ghost use Rattle.fix_wire_frames.specs.code.Texts.{soh_for_bar};
ghost use Rattle.intake_lines.specs.code.LineText.{is_passed_over};
ghost use Rattle.intake_lines.specs.code.OneByOne.{day_line, line_by_bytes};
ghost use Rattle.intake_lines.specs.declared.lines.LinesFault.TheVariants.{NoMemory};

use spread_rules_ids::bytes::SOH;
use std::alloc::AllocError;

/// Some bytes of a session's stream.
#[derive(Clone, Copy, PartialEq, Eq)]
pub struct Line<'a> {
    /// 0 to 15.
    pub session: u8,
    pub bytes: &'a [u8],
}

/// Puts SOH where a `|` stands.
pub fn put_field_ends(text: &mut [u8])
    ensures { text.new ≡ with_soh text.old }
{
    for byte in text.iter_mut() {
        *byte = shown_byte(*byte);
    }
}

fn shown_byte(byte: u8) -> u8
    ensures { result ≡ soh_for_bar byte }
{
    if byte == b'|' { SOH } else { byte }
}

/// Whether the line is empty or a comment.
pub fn is_skipped(line: &[u8]) -> bool
    ensures { result ≡ is_passed_over line.now }
{
    match line {
        [] => true,
        [first, ..] => *first == b'#',
    }
}

/// The session and the bytes of a line.
pub fn read_line(line: &[u8]) -> Option<Line<'_>>
    ensures line { option_map (λ l. day_line l.session l.bytes.now) result ≡ line_by_bytes line.now }
    ensures session { IfSome result (λ l. l.session < SESSIONS) }
{
    if line.len() < 2 {
        return None;
    }
    let (a, b) = (line[0], line[1]);
    if a.is_ascii_digit() && b == b':' {
        return Some(Line {
            session: a - b'0',
            bytes: &line[2..],
        });
    }
    if a == b'1' && b >= b'0' && b <= b'5' && line.len() > 2 && line[2] == b':' {
        return Some(Line {
            session: 10 + (b - b'0'),
            bytes: &line[3..],
        });
    }
    None
}

/// Why day lines gave no journal.
#[derive(Clone, Copy, Debug, PartialEq, Eq)]
pub enum LinesFault {
    /// The source failed, or gave more than 16,777,216 bytes.
    Read,
    /// The first bad line, counted from 1 over all lines.
    BadLine(u64),
    /// The journal would have more than 1,000,000 entries.
    JournalFull,
    /// A request for memory was refused.
    NoMemory,
}

impl From<AllocError> for LinesFault {
    ghost from_gives = { λ _ f. f ≡ NoMemory };

    fn from(_error: AllocError) -> LinesFault {
        LinesFault::NoMemory
    }
}
