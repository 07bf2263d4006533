//! Why a run of the host ended without its day: one fault for all that its parts can meet.
#![tactic(auto)]

mod fault;

pub use fault::HostFault;
