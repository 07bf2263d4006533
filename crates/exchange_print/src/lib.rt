//! A day's text to a sink: one thread makes and writes the journal, and then writes what stands behind it, which another
//! makes meanwhile.
#![tactic(auto)]

mod printing;

pub use printing::{Printed, print_day};
