//! Codes that the journal and the FIX messages bear, under the names that FIX 4.2 gives them.

pub mod close_reason;
pub mod cxl_rej_reason;
pub mod ord_rej_reason;
pub mod ord_status;
pub mod session_reject_reason;
pub mod side;
