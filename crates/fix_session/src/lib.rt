//! Sessions of FIX 4.2: the bytes of a session read, and what each of its messages says.
#![tactic(auto)]

mod reader;

// Of fix_session_judging.
pub use fix_session_judging::{Session, Verdict};
pub use reader::Reader;
