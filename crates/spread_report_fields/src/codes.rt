//! The code sets of execution reports, and the values of fields that are always the same.
ghost use Rattle.std.specs.Prelude.{◌≡◌};
ghost use Rattle.spread_report_fields.specs.Codes.{side_code};
ghost use Rattle.spread_report_fields.specs.code.Codes as code;

use spread_rules::Side;
use spread_rules::codes::{ord_status, side};

/// EncryptMethod (tag 98): none.
pub const ENCRYPT_METHOD_NONE: u64 = 0;
/// ExecTransType (tag 20): a new report.
pub const EXEC_TRANS_TYPE_NEW: u64 = 0;
/// CxlRejResponseTo (tag 434): an OrderCancelRequest.
pub const CXL_REJ_RESPONSE_TO_CANCEL: u64 = 1;
/// CxlRejResponseTo (tag 434): an OrderCancelReplaceRequest.
pub const CXL_REJ_RESPONSE_TO_REPLACE: u64 = 2;
/// MultiLegReportingType (tag 442): an outright's fill.
pub const SINGLE_SECURITY: u64 = 1;
/// MultiLegReportingType (tag 442): one leg of a spread's fill.
pub const INDIVIDUAL_LEG: u64 = 2;
/// MultiLegReportingType (tag 442): a spread's fill as a whole.
pub const MULTI_LEG_SECURITY: u64 = 3;

/// ExecType and OrdStatus (tags 150 and 39): what became of an order.
#[derive(Clone, Copy)]
pub enum OrdStatus {
    New,
    PartiallyFilled,
    Filled,
    Canceled,
    Replaced,
    Rejected,
}

/// MultiLegReportingType (tag 442): which part of a fill a report tells.
#[derive(Clone, Copy)]
pub enum MultiLegReportingType {
    /// An outright's fill.
    SingleSecurity,
    /// One leg of a spread's fill.
    IndividualLeg,
    /// The spread's fill as a whole.
    MultiLegSecurity,
}

impl OrdStatus {
    #[inline(always)]
    pub fn code(self) -> u64
        ensures { result ≡ code.ord_status_code self }
    {
        match self {
            OrdStatus::New => ord_status::NEW as u64,
            OrdStatus::PartiallyFilled => ord_status::PARTIALLY_FILLED as u64,
            OrdStatus::Filled => ord_status::FILLED as u64,
            OrdStatus::Canceled => ord_status::CANCELED as u64,
            OrdStatus::Replaced => ord_status::REPLACED as u64,
            OrdStatus::Rejected => ord_status::REJECTED as u64,
        }
    }
}

impl MultiLegReportingType {
    #[inline(always)]
    pub fn code(self) -> u64
        ensures { result ≡ code.multi_leg_code self }
    {
        match self {
            MultiLegReportingType::SingleSecurity => SINGLE_SECURITY,
            MultiLegReportingType::IndividualLeg => INDIVIDUAL_LEG,
            MultiLegReportingType::MultiLegSecurity => MULTI_LEG_SECURITY,
        }
    }
}

/// Side (tag 54).
#[inline(always)]
pub fn side_code(side: Side) -> u64
    ensures { result ≡ side_code side }
{
    match side {
        Side::Buy => u64::from(side::BUY - b'0'),
        Side::Sell => u64::from(side::SELL - b'0'),
    }
}
