//! The turns of a new order, one after another.
ghost use Rattle.std.specs.Prelude.{◌≡◌, ◌-◌, All, IfOk, fold};
ghost use Rattle.spread_rules.specs.Candidates.{members};
ghost use Rattle.spread_rules.specs.code.Candidates.{HasOrderPrice};
ghost use Rattle.spread_rules.specs.Clearing.{after_fill};
ghost use Rattle.explain_turns.specs.Explained.{AreTurns, HaveLegPrices, LiesBeyond, after_all_turns};
ghost use Rattle.explain_turns.specs.code.Turns.{IsAfter};

use crate::beyond::beyond_limit;
use crate::one_turn::{next_turn, reduce_members};
use crate::turn::{ExplainedTurn, Explanation};
use spread_rules::{Order, Rulebook};
use std::alloc::{AllocError, Allocator};

/// The turns so far, and what is left of the new order.
#[derive(Drop)]
struct Told<A: Allocator + Copy> {
    turns: Vec<ExplainedTurn, A>,
    left: Order,
}

/// The members of a turn have so much less left. Answers what is left of the new order after it.
fn after_turn<A: Allocator + Copy>(
    orders: &mut Vec<Order, A>,
    left: &Order,
    turn: &ExplainedTurn,
) -> Order
    ensures left { result
        ≡ record left.now { leaves = left.now.leaves - turn.now.quantity } }
    ensures orders { orders.new.items ≡ fold (after_fill turn.now.quantity) orders.old.items
        (members turn.now.taken.counterparty) }
{
    reduce_members(orders, turn.quantity, &turn.taken.counterparty);
    Order {
        leaves: left.leaves.saturating_sub(turn.quantity),
        ..*left
    }
}

/// The turns of a new order over a list of orders, which is left as they leave it.
fn tell_turns<A: Allocator + Copy>(
    alloc: A,
    rules: &Rulebook,
    orders: &mut Vec<Order, A>,
    new: &Order,
) -> Result<Told<A>, AllocError>
    requires order_price { All HasOrderPrice orders.old.items }
    ensures turns { IfOk result (λ told.
        AreTurns rules.now new.now orders.old.items told.turns.items) }
    ensures after { IfOk result (λ told. IsAfter rules.now new.now orders.old.items
        told.left orders.new.items told.turns.items) }
    ensures orders { IfOk result (λ told. All HasOrderPrice orders.new.items) }
    ensures leg_price { IfOk result (λ told. All HaveLegPrices told.turns.items) }
{
    let most = orders.len();
    let mut turns = Vec::new(alloc);
    let mut left = *new;
    while turns.len() < most {
        let Some(turn) = next_turn(rules, orders, &left) else {
            break;
        };
        left = after_turn(orders, &left, &turn);
        turns.push(turn)?;
    }
    Ok(Told { turns, left })
}

/// The turns of a new order against these orders, one after another, each with the candidate taken and those that ranked
/// next; what is left of it; and, where something is, the best candidate that its limit does not allow.
pub fn explain_order<A: Allocator + Copy>(
    alloc: A,
    rules: &Rulebook,
    orders: Vec<Order, A>,
    new: &Order,
) -> Result<Explanation<A>, AllocError>
    requires order_price { All HasOrderPrice orders.items }
    requires limit { HasOrderPrice new.now }
    ensures turns { IfOk result (λ e. AreTurns rules.now new.now orders.items e.turns.items) }
    ensures leg_price { IfOk result (λ e. All HaveLegPrices e.turns.items) }
    ensures left { IfOk result (λ e.
        e.left ≡ (after_all_turns rules.now new.now orders.items).new.leaves) }
    ensures beyond { IfOk result (λ e. LiesBeyond rules.now new.now orders.items e.beyond) }
{
    let mut orders = orders;
    let told = tell_turns(alloc, rules, &mut orders, new)?;
    let beyond = beyond_limit(rules, &orders, &told.left);
    Ok(Explanation {
        left: told.left.leaves,
        turns: told.turns,
        beyond,
    })
}
