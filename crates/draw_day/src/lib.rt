//! A day as one picture: the prices of each instrument that traded, over the places of the journal, as an SVG file.
//!
//! `watch` applies the entries and keeps what each instrument's best prices and trades were, column by column; the page
//! of them is `draw_page`'s.
#![tactic(auto)]

mod drawing;
mod fault;
mod watch;

pub use drawing::draw;
pub use fault::DrawFault;
