//! How the newest order, which stands in the book and among the statuses, is traded.
ghost use Rattle.std.specs.Prelude.{◌≡◌, ◌≤◌, ◌+◌, ◌*◌, ◌++◌, min, drop, length};
ghost use Rattle.std.specs.Vec.{vec_len, vec_capacity};
ghost use Rattle.spread_rules.specs.Clearing.{removed};
ghost use Rattle.spread_rules.specs.code.Meaning.{resting};
ghost use Rattle.spread_rules_rulebook.specs.Rulebook.{month_count};
ghost use Rattle.spread_match_trading.specs.Tradable.{IsTradable};
ghost use Rattle.spread_match_trading.specs.code.Turns.{IsNewest};
ghost use Rattle.spread_match_statuses.specs.code.Statuses.{statuses_after};
ghost use Rattle.spread_match_orders.specs.code.Entering.{orders_after_trading, trading_of};

use spread_books_plain::Book;
use spread_match_statuses::Statuses;
use spread_match_trading::trade;
use spread_rules::{Fill, Order, Rulebook};
use std::alloc::Allocator;

/// Orders that the fills from that one on leave nothing of are filled.
fn mark_filled_from<A: Allocator + Copy>(statuses: &mut Statuses<A>, fills: &[Fill], from: usize)
    requires { from ≤ length fills.now }
    ensures { statuses.new ≡ statuses_after (drop from fills.now) statuses.old }
{
    statuses.mark_filled(&fills[from..]);
}

/// The new order rests with what is left, or goes.
fn rest_or_remove<B: Book>(book: &mut B, immediate: bool, own: &Order, left: u32)
    requires newest { IsNewest own.now (B.orders book.old) }
    requires most { left ≤ own.now.leaves }
    ensures orders { B.orders book.new
        ≡ orders_after_trading immediate own.now left (B.orders book.old) }
    ensures rules { B.quotes_by book.new ≡ B.quotes_by book.old }
{
    if left == 0 || immediate {
        book.remove(own.place);
    } else if left < own.leaves {
        book.reduce(own.place, own.leaves - left);
    }
}

/// The newest order, which stands in the book and among the statuses, is traded, and rests with what is left or goes.
/// Answers how much is left. There is room for three fills of each other order.
pub fn trade_newest<B: Book, A: Allocator + Copy>(
    book: &mut B,
    statuses: &mut Statuses<A>,
    rules: &Rulebook,
    order: &Order,
    immediate: bool,
    fills: &mut Vec<Fill, A>,
) -> u32
    requires newest { IsNewest order.now (B.orders book.old) }
    requires tradable { IsTradable (month_count rules.now) (B.orders book.old) }
    requires room { vec_len fills.old
        + 3 * min order.now.leaves (length (removed order.now.place (B.orders book.old)))
        ≤ vec_capacity fills.old }
    ensures left { result ≡ (trading_of rules.now order.now (B.orders book.old)).new.leaves }
    ensures fills { fills.new.items
        ≡ fills.old.items ++ (trading_of rules.now order.now (B.orders book.old)).fills }
    ensures orders { B.orders book.new
        ≡ resting immediate (trading_of rules.now order.now (B.orders book.old)) }
    ensures statuses { statuses.new
        ≡ statuses_after (trading_of rules.now order.now (B.orders book.old)).fills
        statuses.old }
    ensures rules { B.quotes_by book.new ≡ B.quotes_by book.old }
{
    let before = fills.len();
    let left = trade(book, rules, *order, fills);
    rest_or_remove(book, immediate, order, left.leaves);
    mark_filled_from(statuses, fills, before);
    left.leaves
}
