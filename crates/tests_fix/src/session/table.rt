//! What messages mean by the table of kinds alone.
use super::framed;
use crate::expect::holds;
use fix_session_kinds::{Meaning, meaning_of_message, order_texts, ticket_of};
use fix_wire::Message;
use spread_rules::{Side, Ticket};
use tests_shared::id;

/// Number 9 is due after it.
#[test]
fn a_gap_fill(rt: HostRuntime) {
    let frame = framed(&rt, rt.alloc(), "35=4|34=2|49=C1|56=HOST|52=S|36=9|123=Y|");
    let message = Message::whole(&frame).expect(&rt, "a frame");
    let meaning = meaning_of_message(&message, 2);
    holds(&rt, matches!(meaning, Ok(Meaning::GapFill(9))));
}

/// Its texts, and the ticket that they are.
#[test]
fn a_new_order(rt: HostRuntime) {
    let frame = framed(
        &rt,
        rt.alloc(),
        "35=D|34=2|49=C1|56=HOST|52=S|11=a|21=1|55=H6|54=2|60=T|38=5|40=2|44=100|59=0|",
    );
    let message = Message::whole(&frame).expect(&rt, "a frame");
    match order_texts(&message) {
        Ok(texts) => {
            let ticket = Ticket {
                id: id(b"a"),
                symbol: id(b"H6"),
                side: Side::Sell,
                quantity: 5,
                price: 10_000,
                immediate: false,
            };
            holds(&rt, ticket_of(&texts) == ticket);
        }
        Err(_) => holds(&rt, false),
    }
}
