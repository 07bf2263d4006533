//! The tags of FIX 4.2 that the host reads or writes, under the names that FIX gives them.

pub const AVG_PX: u32 = 6;

pub const BEGIN_SEQ_NO: u32 = 7;

pub const CL_ORD_ID: u32 = 11;

pub const CUM_QTY: u32 = 14;

pub const END_SEQ_NO: u32 = 16;

pub const EXEC_ID: u32 = 17;

pub const EXEC_TRANS_TYPE: u32 = 20;

pub const HANDL_INST: u32 = 21;

pub const LAST_PX: u32 = 31;

pub const LAST_SHARES: u32 = 32;

pub const MSG_SEQ_NUM: u32 = 34;

pub const MSG_TYPE: u32 = 35;

pub const NEW_SEQ_NO: u32 = 36;

pub const ORDER_ID: u32 = 37;

pub const ORDER_QTY: u32 = 38;

pub const ORD_STATUS: u32 = 39;

pub const ORD_TYPE: u32 = 40;

pub const ORIG_CL_ORD_ID: u32 = 41;

pub const POSS_DUP_FLAG: u32 = 43;

pub const PRICE: u32 = 44;

pub const REF_SEQ_NUM: u32 = 45;

pub const SENDER_COMP_ID: u32 = 49;

pub const SENDING_TIME: u32 = 52;

pub const SIDE: u32 = 54;

pub const SYMBOL: u32 = 55;

pub const TARGET_COMP_ID: u32 = 56;

pub const TEXT: u32 = 58;

pub const TIME_IN_FORCE: u32 = 59;

pub const TRANSACT_TIME: u32 = 60;

pub const ENCRYPT_METHOD: u32 = 98;

pub const CXL_REJ_REASON: u32 = 102;

pub const ORD_REJ_REASON: u32 = 103;

pub const HEART_BT_INT: u32 = 108;

pub const TEST_REQ_ID: u32 = 112;

pub const ORIG_SENDING_TIME: u32 = 122;

pub const GAP_FILL_FLAG: u32 = 123;

pub const EXEC_TYPE: u32 = 150;

pub const LEAVES_QTY: u32 = 151;

pub const SESSION_REJECT_REASON: u32 = 373;

pub const CXL_REJ_RESPONSE_TO: u32 = 434;

pub const MULTI_LEG_REPORTING_TYPE: u32 = 442;
