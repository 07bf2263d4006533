//! Lawful frames of FIX 4.2 and their values.
#![tactic(auto)]

pub mod field_values;
mod frame;
pub mod laws;
mod marks;
mod message;
pub mod msg_types;
mod table;
pub mod tags;

pub use frame::{
    BEGIN_BYTES, BEGIN_TEXT, CHECKSUM_BYTES, FrameHeader, Scan, checksum, checksum_digits,
    header_of, header_of_begun, next_begin, scan_front,
};
pub use message::{MAX_FRAME_BYTES, Message};
pub use table::FrameTable;
