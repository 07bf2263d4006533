//! What a new order's turns came to, told turn by turn: the candidate taken, and those that ranked next.
#![tactic(auto)]

mod beyond;
mod next;
mod one_turn;
mod point;
mod turn;
mod turns;

pub use next::plain_next;
pub use point::{RankPoint, point_between};
pub use turn::{Beyond, ExplainedTurn, Explanation};
pub use turns::explain_order;
