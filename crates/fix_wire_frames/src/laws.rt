//! Laws: frames in words; the numbers and characters that FIX 4.2 gives tags, kinds and values.
ghost use Rattle.std.specs.Prelude.{◌≡◌, List, ℕ, [], ◌∷◌, Some, None, true, false, codes, take, drop};
ghost use Rattle.fix_wire_frames.specs.Frames.{frame_at, may_begin, frames};
ghost use Rattle.fix_wire_frames.specs.declared.field_values.TheConstants as field_value;
ghost use Rattle.fix_wire_frames.specs.declared.frame.TheConstants.{MAX_LENGTH_DIGITS, MAX_TAG_DIGITS};
ghost use Rattle.fix_wire_frames.specs.declared.message.TheConstants.{MAX_FRAME_BYTES};
ghost use Rattle.fix_wire_frames.specs.declared.tags.TheConstants as tag;
ghost use Rattle.fix_wire_frames.specs.declared.msg_types.TheConstants as msg_type;

/// The frames of an input, in words: where a lawful frame stands at its front, that one, then those after it; else, where the
/// input may still begin one, none; else those from the next place on.
pub fn frame_by_frame()
    ensures frame { (input : List ℕ) (n : ℕ) → frame_at input ≡ Some n →
        frames input ≡ take n input ∷ frames (drop n input) }
    ensures unfinished { (input : List ℕ) → frame_at input ≡ None → may_begin input ≡ true →
        frames input ≡ [] }
    ensures garbled { (b : ℕ) (rest : List ℕ) → frame_at (b ∷ rest) ≡ None →
        may_begin (b ∷ rest) ≡ false → frames (b ∷ rest) ≡ frames rest }
{}

/// The numbers that FIX 4.2 gives its tags.
pub fn tags()
    ensures avg_px { tag.AVG_PX ≡ 6 }
    ensures begin_seq_no { tag.BEGIN_SEQ_NO ≡ 7 }
    ensures cl_ord_id { tag.CL_ORD_ID ≡ 11 }
    ensures cum_qty { tag.CUM_QTY ≡ 14 }
    ensures end_seq_no { tag.END_SEQ_NO ≡ 16 }
    ensures exec_id { tag.EXEC_ID ≡ 17 }
    ensures exec_trans_type { tag.EXEC_TRANS_TYPE ≡ 20 }
    ensures handl_inst { tag.HANDL_INST ≡ 21 }
    ensures last_px { tag.LAST_PX ≡ 31 }
    ensures last_shares { tag.LAST_SHARES ≡ 32 }
    ensures msg_seq_num { tag.MSG_SEQ_NUM ≡ 34 }
    ensures msg_type { tag.MSG_TYPE ≡ 35 }
    ensures new_seq_no { tag.NEW_SEQ_NO ≡ 36 }
    ensures order_id { tag.ORDER_ID ≡ 37 }
    ensures order_qty { tag.ORDER_QTY ≡ 38 }
    ensures ord_status { tag.ORD_STATUS ≡ 39 }
    ensures ord_type { tag.ORD_TYPE ≡ 40 }
    ensures orig_cl_ord_id { tag.ORIG_CL_ORD_ID ≡ 41 }
    ensures poss_dup_flag { tag.POSS_DUP_FLAG ≡ 43 }
    ensures price { tag.PRICE ≡ 44 }
    ensures ref_seq_num { tag.REF_SEQ_NUM ≡ 45 }
    ensures sender_comp_id { tag.SENDER_COMP_ID ≡ 49 }
    ensures sending_time { tag.SENDING_TIME ≡ 52 }
    ensures side { tag.SIDE ≡ 54 }
    ensures symbol { tag.SYMBOL ≡ 55 }
    ensures target_comp_id { tag.TARGET_COMP_ID ≡ 56 }
    ensures text { tag.TEXT ≡ 58 }
    ensures time_in_force { tag.TIME_IN_FORCE ≡ 59 }
    ensures transact_time { tag.TRANSACT_TIME ≡ 60 }
    ensures encrypt_method { tag.ENCRYPT_METHOD ≡ 98 }
    ensures cxl_rej_reason { tag.CXL_REJ_REASON ≡ 102 }
    ensures ord_rej_reason { tag.ORD_REJ_REASON ≡ 103 }
    ensures heart_bt_int { tag.HEART_BT_INT ≡ 108 }
    ensures test_req_id { tag.TEST_REQ_ID ≡ 112 }
    ensures orig_sending_time { tag.ORIG_SENDING_TIME ≡ 122 }
    ensures gap_fill_flag { tag.GAP_FILL_FLAG ≡ 123 }
    ensures exec_type { tag.EXEC_TYPE ≡ 150 }
    ensures leaves_qty { tag.LEAVES_QTY ≡ 151 }
    ensures session_reject_reason { tag.SESSION_REJECT_REASON ≡ 373 }
    ensures cxl_rej_response_to { tag.CXL_REJ_RESPONSE_TO ≡ 434 }
    ensures multi_leg_reporting_type { tag.MULTI_LEG_REPORTING_TYPE ≡ 442 }
{}

/// The characters that FIX 4.2 gives its kinds of messages (MsgType, tag 35).
pub fn msg_types()
    ensures heartbeat { msg_type.HEARTBEAT ∷ [] ≡ codes "0" }
    ensures test_request { msg_type.TEST_REQUEST ∷ [] ≡ codes "1" }
    ensures resend_request { msg_type.RESEND_REQUEST ∷ [] ≡ codes "2" }
    ensures reject { msg_type.REJECT ∷ [] ≡ codes "3" }
    ensures sequence_reset { msg_type.SEQUENCE_RESET ∷ [] ≡ codes "4" }
    ensures logout { msg_type.LOGOUT ∷ [] ≡ codes "5" }
    ensures execution_report { msg_type.EXECUTION_REPORT ∷ [] ≡ codes "8" }
    ensures order_cancel_reject { msg_type.ORDER_CANCEL_REJECT ∷ [] ≡ codes "9" }
    ensures logon { msg_type.LOGON ∷ [] ≡ codes "A" }
    ensures new_order_single { msg_type.NEW_ORDER_SINGLE ∷ [] ≡ codes "D" }
    ensures order_cancel_request { msg_type.ORDER_CANCEL_REQUEST ∷ [] ≡ codes "F" }
    ensures order_cancel_replace_request { msg_type.ORDER_CANCEL_REPLACE_REQUEST ∷ [] ≡ codes "G" }
{}

/// The characters that FIX 4.2 gives the values of TimeInForce (tag 59).
pub fn field_values()
    ensures day { field_value.DAY ∷ [] ≡ codes "0" }
    ensures immediate_or_cancel { field_value.IMMEDIATE_OR_CANCEL ∷ [] ≡ codes "3" }
{}

/// How long the parts of a frame may be.
pub fn sizes()
    ensures length_digits { MAX_LENGTH_DIGITS ≡ 8 }
    ensures tag_digits { MAX_TAG_DIGITS ≡ 9 }
    ensures frame_bytes { MAX_FRAME_BYTES ≡ 4124 }
{}
