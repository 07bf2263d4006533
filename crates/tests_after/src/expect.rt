//! What tests expect. Each test crate has this file, since a library may not abort. Where each place has an `assert!`
//! of its own, a crate of tests takes up to a quarter longer to prove.
ghost use Rattle.std.specs.Prelude.{◌≡◌, true};

use std::process::Abort;

/// Fails the test unless it is so.
pub fn holds(rt: &impl Abort, is_so: bool)
    ensures { is_so ≡ true }
{
    assert!(rt; is_so);
}

/// The same, and a failure tells the name of the case.
pub fn holds_for(rt: &impl Abort, is_so: bool, name: &str)
    ensures { is_so ≡ true }
{
    assert!(rt; is_so, "{name}");
}
