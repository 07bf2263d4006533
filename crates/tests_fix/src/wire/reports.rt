//! The execution reports' own fields, as the worked days have them.
use crate::expect::holds;
use fix_wire::Body;
use spread_report_fields::{
    CancelReport, ExecId, FillReport, MultiLegReportingType, OrdStatus, OrderReport, RejectReport,
    side_code, symbol_of,
};
use spread_rules::{Instrument, Rulebook, Side};
use spread_rules_ids::Id;
use std::process::Abort;
use tests_shared::{THREE_MONTHS, id};

/// The report writes so many fields behind the two bytes that stand in the room.
fn expect<B: Body>(rt: &impl Abort, report: &B, count: usize, text: &[u8]) {
    let mut room = [7; 1002];
    holds(rt, count <= 15 && report.count() == count);
    let end = report.put(&mut room, 2);
    holds(rt, end == text.len().saturating_add(2));
    holds(rt, room[2..].starts_with(text));
}

/// Of the order of place 2 to sell 5 H6, the first report of the entry of place 2 or 3.
fn sell<'a>(place: u64, name: &'a Id, symbol: &'a Id, ord_status: OrdStatus) -> OrderReport<'a> {
    OrderReport {
        order_id: 2,
        cl_ord_id: name,
        exec_id: ExecId { place, index: 1 },
        ord_status,
        symbol,
        side: Side::Sell,
        order_qty: 5,
        leaves_qty: 0,
        cum_qty: 0,
    }
}

#[test]
fn an_order_that_rests(rt: HostRuntime) {
    let (name, symbol) = (id(b"a"), id(b"H6"));
    let report = OrderReport {
        leaves_qty: 5,
        ..sell(2, &name, &symbol, OrdStatus::New)
    };
    expect(
        &rt,
        &report,
        12,
        b"37=2\x0111=a\x0117=2-1\x0120=0\x01150=0\x0139=0\x0155=H6\x0154=2\x0138=5\x01151=5\x0114=0\x016=0\x01",
    );
}

#[test]
fn an_order_that_is_refused(rt: HostRuntime) {
    let (name, symbol) = (id(b"a"), id(b"M6-H6"));
    let report = RejectReport {
        order: sell(2, &name, &symbol, OrdStatus::Rejected),
        reason: 1,
    };
    expect(
        &rt,
        &report,
        13,
        b"37=2\x0111=a\x0117=2-1\x0120=0\x01150=8\x0139=8\x01103=1\x0155=M6-H6\x0154=2\x0138=5\x01151=0\x0114=0\x016=0\x01",
    );
}

#[test]
fn an_order_that_is_cancelled(rt: HostRuntime) {
    let (name, original, symbol) = (id(b"b"), id(b"a"), id(b"H6"));
    let report = CancelReport {
        order: sell(3, &name, &symbol, OrdStatus::Canceled),
        original: &original,
    };
    expect(
        &rt,
        &report,
        13,
        b"37=2\x0111=b\x0141=a\x0117=3-1\x0120=0\x01150=4\x0139=4\x0155=H6\x0154=2\x0138=5\x01151=0\x0114=0\x016=0\x01",
    );
}

#[test]
fn an_order_that_is_filled(rt: HostRuntime) {
    let (name, symbol) = (id(b"a"), id(b"H6"));
    let report = FillReport {
        order: OrderReport {
            cum_qty: 5,
            ..sell(3, &name, &symbol, OrdStatus::Filled)
        },
        last_shares: 5,
        last_px: 10_000,
        multi_leg: MultiLegReportingType::SingleSecurity,
    };
    expect(
        &rt,
        &report,
        15,
        b"37=2\x0111=a\x0117=3-1\x0120=0\x01150=2\x0139=2\x0155=H6\x0154=2\x0138=5\x0132=5\x0131=100.00\x01151=0\x0114=5\x016=0\x01442=1\x01",
    );
}

/// The symbol of a spread is its legs' names with a dash between; the codes are those of FIX 4.2.
#[test]
fn symbols_and_codes(rt: HostRuntime) {
    let rulebook = Rulebook::read(THREE_MONTHS).expect(&rt, "a rulebook");
    holds(&rt, rulebook.months() == 3);
    holds(
        &rt,
        symbol_of(&rulebook, Instrument::Outright(2)) == id(b"U6"),
    );
    holds(
        &rt,
        symbol_of(&rulebook, Instrument::Spread(0, 1)) == id(b"H6-M6"),
    );
    holds(&rt, side_code(Side::Buy) == 1 && side_code(Side::Sell) == 2);
    holds(&rt, OrdStatus::PartiallyFilled.code() == 1);
    holds(&rt, MultiLegReportingType::MultiLegSecurity.code() == 3);
}
