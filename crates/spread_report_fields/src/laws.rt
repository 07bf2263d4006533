//! Law: the numbers of the codes in reports.
ghost use Rattle.std.specs.Prelude.{◌≡◌, ◌+◌};
ghost use Rattle.spread_report_fields.specs.Codes.{side_code};
ghost use Rattle.spread_report_fields.specs.declared.codes.TheConstants.{ENCRYPT_METHOD_NONE, EXEC_TRANS_TYPE_NEW, CXL_REJ_RESPONSE_TO_CANCEL, CXL_REJ_RESPONSE_TO_REPLACE, SINGLE_SECURITY, INDIVIDUAL_LEG, MULTI_LEG_SECURITY};
ghost use Rattle.spread_rules.specs.declared.codes.side.TheConstants as side;
ghost use Rattle.spread_rules.specs.declared.order.Side.TheVariants.{Buy, Sell};

/// The numbers that FIX 4.2 gives what reports say in code. A side's is the digit by which messages name it.
pub fn report_codes()
    ensures encrypt_method_none { ENCRYPT_METHOD_NONE ≡ 0 }
    ensures exec_trans_type_new { EXEC_TRANS_TYPE_NEW ≡ 0 }
    ensures cxl_rej_response_to_cancel { CXL_REJ_RESPONSE_TO_CANCEL ≡ 1 }
    ensures cxl_rej_response_to_replace { CXL_REJ_RESPONSE_TO_REPLACE ≡ 2 }
    ensures single_security { SINGLE_SECURITY ≡ 1 }
    ensures individual_leg { INDIVIDUAL_LEG ≡ 2 }
    ensures multi_leg_security { MULTI_LEG_SECURITY ≡ 3 }
    ensures buy { side.BUY ≡ 48 + side_code Buy }
    ensures sell { side.SELL ≡ 48 + side_code Sell }
{}
