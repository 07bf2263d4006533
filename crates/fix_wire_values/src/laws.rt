//! Law: the greatest price that a text may have.
ghost use Rattle.std.specs.Prelude.{◌≡◌};
ghost use Rattle.fix_wire_values.specs.declared.values.TheConstants.{MAX_HUNDREDTHS};

/// The greatest price that a text may have, either way: 10,000,000.00 in hundredths.
pub fn greatest_price()
    ensures { MAX_HUNDREDTHS ≡ 1000000000 }
{}
