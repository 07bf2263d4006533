//! Reports: the FIX bytes that each session is sent.
#![tactic(auto)]

mod admin;
mod desk;
mod entry;
pub mod laws;
mod ranges;

pub use desk::Desk;
pub use ranges::{fit_fills, fits_outcome};
// Of spread_report_outbound.
pub use spread_report_outbound::DeskFault;
