//! Instruments.
ghost use Rattle.std.specs.Prelude.{◌≡◌};
ghost use Rattle.spread_rules_rulebook.specs.Instruments.{month_of};

/// What is traded. Months are numbers from 0 in order of expiry.
#[derive(Clone, Copy, PartialEq, Eq)]
pub enum Instrument {
    /// One month.
    Outright(u8),
    /// A calendar spread, near month before far: buying it buys the near month and sells the far one.
    Spread(u8, u8),
}

impl Instrument {
    /// The month of an outright, the far month of a spread.
    #[inline(always)]
    pub fn far_month(self) -> u8
        ensures { result ≡ month_of self }
    {
        match self {
            Instrument::Outright(month) => month,
            Instrument::Spread(_, far) => far,
        }
    }
}
