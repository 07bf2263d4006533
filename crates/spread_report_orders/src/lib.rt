//! Execution reports, sent: of what became of an order, and of its fills.
#![tactic(auto)]

mod fill;
mod order;

pub use fill::send_fills;
pub use order::{
    CancelRequest, NewOrder, send_accepted, send_cancelled, send_ended, send_rejected,
    send_replaced,
};
