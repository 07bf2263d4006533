//! Words, as they are put together.
use itoa::Buffer;
use spread_rules::{Id, Instrument, NoMemory, Order, Rulebook, Side};
use std::alloc::Allocator;

/// Words so far, and the rulebook whose months they name. A first refusal of memory is kept and told at the end, as the
/// builders of `std::fmt` do; nothing is put behind it.
#[derive(Drop)]
pub struct Words<'r, A: Allocator + Copy> {
    pub rulebook: &'r Rulebook,
    text: Vec<u8, A>,
    is_refused: bool,
}

impl<'r, A: Allocator + Copy> Words<'r, A> {
    /// No words yet.
    pub fn new(alloc: A, rulebook: &'r Rulebook) -> Self {
        Words {
            rulebook,
            text: Vec::new(alloc),
            is_refused: false,
        }
    }

    /// The bytes of all words, unless memory was refused.
    pub fn finish(self) -> Result<Vec<u8, A>, NoMemory> {
        if self.is_refused {
            Err(NoMemory)
        } else {
            Ok(self.text)
        }
    }

    /// These bytes as they are.
    pub fn put(&mut self, text: &[u8]) {
        if !self.is_refused {
            self.is_refused = self.text.extend_from_slice(text).is_err();
        }
    }

    /// A number.
    pub fn number(&mut self, number: u64) {
        self.put(Buffer::new().format(number).as_bytes());
    }

    /// A price, in hundredths.
    pub fn price(&mut self, price: i64) {
        self.put(Buffer::new().format(price).as_bytes());
    }

    /// Bytes and a number behind them.
    pub fn named(&mut self, text: &[u8], number: u64) {
        self.put(text);
        self.number(number);
    }

    /// An id in hexadecimal.
    pub fn id(&mut self, id: &Id) {
        let bytes = id.bytes();
        let mut digits = [0u8; 64];
        let digits = &mut digits[..2 * bytes.len()];
        match hex::encode_to_slice(bytes, digits) {
            Ok(()) => self.put(digits),
            Err(_) => self.is_refused = true,
        }
    }

    /// The name of a month of the rulebook.
    pub fn month(&mut self, month: u8) {
        if month < self.rulebook.months() {
            let name = self.rulebook.name(month);
            self.put(name);
        }
    }

    /// The symbol of an instrument.
    pub fn instrument(&mut self, instrument: Instrument) {
        match instrument {
            Instrument::Outright(month) => self.month(month),
            Instrument::Spread(near, far) => {
                self.month(near);
                self.put(b"-");
                self.month(far);
            }
        }
    }

    /// A symbol as it was sent, where it names an instrument; else in hexadecimal.
    pub fn symbol(&mut self, symbol: &Id) {
        match self.rulebook.find(symbol.bytes()) {
            Some(instrument) => self.instrument(instrument),
            None => self.id(symbol),
        }
    }

    /// `buy` or `sell`.
    pub fn side(&mut self, side: Side) {
        match side {
            Side::Buy => self.put(b"buy "),
            Side::Sell => self.put(b"sell "),
        }
    }

    /// An order as it rests: its place and session, what it trades, and what is left of it.
    pub fn order(&mut self, order: &Order) {
        self.named(b"place ", order.place);
        self.named(b", session ", u64::from(order.session));
        self.put(b": ");
        self.side(order.side);
        self.instrument(order.instrument);
        self.put(b" at ");
        self.price(order.price);
        self.named(b", ", u64::from(order.leaves));
        self.put(b" left");
    }
}
