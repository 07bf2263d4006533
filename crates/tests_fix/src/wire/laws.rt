//! The laws hold of nothing but definitions, and want nothing.
use fix_wire::laws;
use fix_wire_framer::laws::buffer;
use fix_wire_frames::laws::{field_values, sizes};
use fix_wire_values::laws::greatest_price;
use spread_report_fields::laws::report_codes;
use spread_rules_ids::laws::bytes;

/// A law asks nothing of who cites it, and does nothing when it runs. That it holds is the prover's to say.
#[test]
fn laws_have_no_premises() {
    laws::scan();
    laws::frame_by_frame();
    laws::read_back();
    laws::tags();
    laws::msg_types();
    field_values();
    sizes();
    buffer();
    greatest_price();
    bytes();
    report_codes();
}
