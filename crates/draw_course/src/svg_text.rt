//! The text of an SVG file: names, prices and numbers.
ghost use Rattle.std.specs.Prelude.{◌<◌};

use spread_rules::{Instrument, Rulebook};
use std::alloc::{AllocError, Allocator};
use std::fmt::Display;

/// What stands for a byte that may not stand for itself: its name, or a mark where it is no sign of ASCII.
fn escaped(byte: u8) -> Option<&'static str> {
    match byte {
        b'&' => Some("&amp;"),
        b'<' => Some("&lt;"),
        b'>' => Some("&gt;"),
        b'"' => Some("&quot;"),
        b' '..=b'~' => None,
        _ => Some("&#xfffd;"),
    }
}

/// Bytes as text: letters, digits and signs of ASCII, a mark in the place of any other.
pub fn put_bytes<A: Allocator>(out: &mut String<A>, bytes: &[u8]) -> Result<(), AllocError> {
    for byte in bytes {
        match escaped(*byte) {
            Some(text) => out.push_str(text)?,
            None => out.push(char::from(*byte))?,
        }
    }
    Ok(())
}

/// The text of a file. A first refusal of memory is kept and told at the end, as the builders of `std::fmt` do; nothing
/// is put behind it.
#[derive(Drop)]
pub struct SvgText<A: Allocator> {
    text: String<A>,
    is_refused: bool,
}

impl<A: Allocator> SvgText<A> {
    /// No text yet.
    pub fn new(alloc: A) -> Self {
        SvgText {
            text: String::new(alloc),
            is_refused: false,
        }
    }

    /// The whole text, unless memory was refused.
    pub fn finish(self) -> Result<String<A>, AllocError> {
        if self.is_refused {
            Err(AllocError)
        } else {
            Ok(self.text)
        }
    }

    /// A text as it is.
    pub fn put(&mut self, text: &str) {
        if !self.is_refused {
            self.is_refused = self.text.push_str(text).is_err();
        }
    }

    /// What `write!` calls.
    pub fn write_fmt<D: Display + Drop>(&mut self, value: D) {
        if !self.is_refused {
            self.is_refused = self.text.write(value).is_err();
        }
    }

    /// The name of a month of the rulebook.
    fn month(&mut self, rulebook: &Rulebook, month: u8) {
        if !self.is_refused && month < rulebook.months() {
            self.is_refused = put_bytes(&mut self.text, rulebook.name(month)).is_err();
        }
    }

    /// The symbol of an instrument.
    pub fn symbol(&mut self, rulebook: &Rulebook, instrument: Instrument) {
        match instrument {
            Instrument::Outright(month) => self.month(rulebook, month),
            Instrument::Spread(near, far) => {
                self.month(rulebook, near);
                self.put("-");
                self.month(rulebook, far);
            }
        }
    }

    /// A price in hundredths, with its point and two places.
    pub fn price(&mut self, price: i64) {
        let sign = if price < 0 { "-" } else { "" };
        let whole = price.unsigned_abs() / 100;
        let part = price.unsigned_abs() % 100;
        write!(self, "{sign}{whole}.{part:02}");
    }

    /// A number, its thousands set apart.
    pub fn count(&mut self, count: u64) {
        let millions = count / 1_000_000;
        let thousands = count / 1_000 % 1_000;
        let rest = count % 1_000;
        if count < 1_000 {
            write!(self, "{rest}");
        } else if count < 1_000_000 {
            write!(self, "{thousands},{rest:03}");
        } else {
            write!(self, "{millions},{thousands:03},{rest:03}");
        }
    }
}
