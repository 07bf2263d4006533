//! The execution reports of fills: of a spread's the whole, then its two legs.
ghost use Rattle.std.specs.Prelude.{◌≡◌, ◌<◌, ◌≤◌, ◌+◌, ◌^◌, ◌∷◌, [], FitsSigned, IfOk};
ghost use Rattle.std.specs.Int.{w64};
ghost use Rattle.spread_rules.specs.Legs.{other_side};
ghost use Rattle.spread_rules_rulebook.specs.Rulebook.{month_count};
ghost use Rattle.spread_rules.specs.declared.fill.Fill.{Fill};
ghost use Rattle.spread_rules.specs.Ranges.{FitFills, FitsFill};
ghost use Rattle.spread_report_outbound.specs.code.Sending.{Sends};
ghost use Rattle.spread_report_orders.specs.ExecutionReports.{fill_reports, fills_reports};
ghost use Rattle.spread_report_orders.specs.code.Reports.{report, reports_from, part_report, leg_reports, reports_of, fill_status, report_count};

use fix_wire_frames::msg_types;
use spread_report_fields::{
    ExecId, FillReport, MultiLegReportingType, OrdStatus, OrderReport, symbol_of,
};
use spread_report_outbound::{DeskFault, Outbox};
use spread_rules::{Fill, Instrument, Rulebook, Side};
use spread_rules_ids::Id;
use spread_rules_ids::limits::SESSIONS;
use std::alloc::Allocator;

/// What one report of a fill tells: the whole fill, or one leg of a spread's.
#[derive(Clone, Copy)]
struct ReportedPart<'a> {
    symbol: &'a Id,
    side: Side,
    /// In hundredths.
    price: i64,
    multi_leg: MultiLegReportingType,
}

/// One report of a fill.
fn send_part<A: Allocator + Copy>(
    outbox: &mut Outbox<'_, A>,
    exec_id: ExecId,
    fill: &Fill,
    part: &ReportedPart<'_>,
) -> Result<(), DeskFault>
    requires session { fill.now.session < SESSIONS }
    requires left { fill.now.leaves ≤ fill.now.total }
    requires price { FitsSigned w64 part.now.price }
    ensures { Sends outbox.old outbox.new
        (report exec_id.place exec_id.index (part_report fill.now part.now.symbol.now
        part.now.side part.now.price part.now.multi_leg) ∷ []) result }
{
    let filled = fill.total - fill.leaves;
    let report = FillReport {
        order: OrderReport {
            order_id: fill.order,
            cl_ord_id: &fill.id,
            exec_id,
            ord_status: fill_status(fill.leaves),
            symbol: part.symbol,
            side: part.side,
            order_qty: fill.total as u64,
            leaves_qty: fill.leaves as u64,
            cum_qty: filled as u64,
        },
        last_shares: fill.quantity as u64,
        last_px: part.price,
        multi_leg: part.multi_leg,
    };
    outbox.send_body(fill.session, msg_types::EXECUTION_REPORT, &report)
}

/// Reports the legs of a spread's fill, in the near and in the far month.
fn send_legs<A: Allocator + Copy>(
    outbox: &mut Outbox<'_, A>,
    rules: &Rulebook,
    exec_id: ExecId,
    fill: &Fill,
    months: (u8, u8),
) -> Result<(), DeskFault>
    requires near { months.0 < month_count rules.now }
    requires far { months.1 < month_count rules.now }
    requires fits { FitsFill rules.now fill.now }
    requires index { exec_id.index + 1 < 2 ^ 64 }
    ensures { Sends outbox.old outbox.new
        (reports_from exec_id.place exec_id.index
        (leg_reports months.0 months.1 rules.now fill.now)) result }
{
    let near_month = rules.name_id(months.0);
    let far_month = rules.name_id(months.1);
    let near = ReportedPart {
        symbol: &near_month,
        side: fill.side,
        price: near_of(fill),
        multi_leg: MultiLegReportingType::IndividualLeg,
    };
    send_part(outbox, exec_id, fill, &near)?;
    let far = ReportedPart {
        symbol: &far_month,
        side: other_side(fill.side),
        price: far_of(fill),
        multi_leg: MultiLegReportingType::IndividualLeg,
    };
    send_part(outbox, next(exec_id), fill, &far)
}

/// Reports a fill: of a spread the whole, then its two legs.
fn send_fill<A: Allocator + Copy>(
    outbox: &mut Outbox<'_, A>,
    rules: &Rulebook,
    exec_id: ExecId,
    fill: &Fill,
) -> Result<(), DeskFault>
    requires fits { FitsFill rules.now fill.now }
    requires index { exec_id.index + 2 < 2 ^ 64 }
    ensures { Sends outbox.old outbox.new
        (reports_from exec_id.place exec_id.index
        (fill_reports rules.now fill.now fill.now.instrument)) result }
{
    let symbol = symbol_of(rules, fill.instrument);
    match fill.instrument {
        Instrument::Outright(_) => {
            let part = ReportedPart {
                symbol: &symbol,
                side: fill.side,
                price: price_of(fill),
                multi_leg: MultiLegReportingType::SingleSecurity,
            };
            send_part(outbox, exec_id, fill, &part)
        }
        Instrument::Spread(near, far) => {
            let part = ReportedPart {
                symbol: &symbol,
                side: fill.side,
                price: price_of(fill),
                multi_leg: MultiLegReportingType::MultiLegSecurity,
            };
            send_part(outbox, exec_id, fill, &part)?;
            send_legs(outbox, rules, next(exec_id), fill, (near, far))
        }
    }
}

/// Reports all fills of an entry, and tells the next index.
pub fn send_fills<A: Allocator + Copy>(
    outbox: &mut Outbox<'_, A>,
    rules: &Rulebook,
    place: u64,
    fills: &[Fill],
) -> Result<u64, DeskFault>
    requires { FitFills rules.now fills.now }
    ensures sent { Sends outbox.old outbox.new
        (reports_from place 2 (fills_reports rules.now fills.now)) result }
    ensures index { IfOk result (λ i. i ≡ 2 + reports_of fills.now) }
{
    let mut index = 2;
    for one in fills {
        send_fill(outbox, rules, ExecId { place, index }, one)?;
        index += report_count(one.instrument);
    }
    Ok(index)
}

/// The ExecID of the report behind.
fn next(exec_id: ExecId) -> ExecId
    requires { exec_id.index + 1 < 2 ^ 64 }
    ensures { result ≡ record { place = exec_id.place; index = exec_id.index + 1 } }
{
    ExecId {
        place: exec_id.place,
        index: exec_id.index + 1,
    }
}

/// How many reports a fill has.
fn report_count(instrument: Instrument) -> u64
    ensures value { result ≡ report_count instrument }
    ensures most { result ≤ 3 }
{
    match instrument {
        Instrument::Outright(_) => 1,
        Instrument::Spread(_, _) => 3,
    }
}

/// The status of an order of which that many lots are left.
fn fill_status(leaves: u32) -> OrdStatus
    ensures { result ≡ fill_status leaves }
{
    if leaves == 0 {
        OrdStatus::Filled
    } else {
        OrdStatus::PartiallyFilled
    }
}

/// The other side.
fn other_side(side: Side) -> Side
    ensures { result ≡ other_side side }
{
    match side {
        Side::Buy => Side::Sell,
        Side::Sell => Side::Buy,
    }
}

/// The price of a fill.
fn price_of(fill: &Fill) -> i64
    ensures value { result ≡ fill.now.price }
    ensures fits { FitsSigned w64 fill.now.price }
{
    fill.price
}

/// The price of a fill's near leg.
fn near_of(fill: &Fill) -> i64
    ensures value { result ≡ fill.now.near }
    ensures fits { FitsSigned w64 fill.now.near }
{
    fill.near
}

/// The price of a fill's far leg.
fn far_of(fill: &Fill) -> i64
    ensures value { result ≡ fill.now.far }
    ensures fits { FitsSigned w64 fill.now.far }
{
    fill.far
}
