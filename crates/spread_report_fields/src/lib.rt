//! What execution reports are made of: the fields of each kind of report, their code sets, and symbols.
#![tactic(auto)]

#[macro_export]
macro_rules! text_field {
    ($tag:expr, $id:expr) => {
        Field {
            tag: $tag,
            value: Value::Text($id),
        }
    };
}

#[macro_export]
macro_rules! number_field {
    ($tag:expr, $n:expr) => {
        Field {
            tag: $tag,
            value: Value::Number($n),
        }
    };
}

macro_rules! price_field {
    ($tag:expr, $n:expr) => {
        Field {
            tag: $tag,
            value: Value::Price($n),
        }
    };
}

macro_rules! pair_field {
    ($tag:expr, $a:expr, $b:expr) => {
        Field {
            tag: $tag,
            value: Value::Pair($a, $b),
        }
    };
}

mod codes;
pub mod laws;
mod report_body;
mod symbol;

pub use codes::{
    CXL_REJ_RESPONSE_TO_CANCEL, CXL_REJ_RESPONSE_TO_REPLACE, ENCRYPT_METHOD_NONE,
    EXEC_TRANS_TYPE_NEW, MultiLegReportingType, OrdStatus, side_code,
};
pub use report_body::{CancelReport, ExecId, FillReport, OrderReport, RejectReport};
pub use symbol::symbol_of;
