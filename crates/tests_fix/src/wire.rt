//! Worked frames, values and messages.

mod frames;
mod fronts;
mod laws;
mod messages;
mod reports;
mod values;
mod writing;
