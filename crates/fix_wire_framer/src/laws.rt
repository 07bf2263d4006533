//! Law: how many bytes a framer holds.
ghost use Rattle.std.specs.Prelude.{◌≡◌};
ghost use Rattle.fix_wire_framer.specs.declared.framer.TheConstants.{BUFFER_BYTES};

/// How many bytes a framer holds at most.
pub fn buffer()
    ensures { BUFFER_BYTES ≡ 8192 }
{}
