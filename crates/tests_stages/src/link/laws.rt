//! The laws hold of nothing but definitions, and want nothing.
use gate_link::laws::{owed, schedule, slices, takes_more};
use gate_link_sessions::laws::slice_size;
use gate_link_stages::laws::sizes;

/// A law asks nothing of who cites it, and does nothing when it runs. That it holds is the prover's to say.
#[test]
fn laws_have_no_premises() {
    owed();
    schedule();
    slices();
    takes_more();
    slice_size();
    sizes();
}
