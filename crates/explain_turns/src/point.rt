//! Why one candidate ranks behind another.
ghost use Rattle.spread_rules.specs.Candidates.{rank_of};
ghost use Rattle.spread_rules.specs.code.Candidates.{HasLegPrice};
ghost use Rattle.explain_turns.specs.Explained.{IsPoint};

use spread_rules::{Candidate, Order, ranking};

/// The points of rank, the first that counts first.
#[derive(Clone, Copy)]
pub enum RankPoint {
    /// The better price for the new order.
    Price,
    /// Direct before implied.
    DirectFirst,
    /// The other month that expires earlier.
    OtherMonth,
    /// The earlier place of the first member.
    FirstMember,
    /// The earlier place of the second member.
    SecondMember,
}

/// The first point in which one candidate ranks behind another.
pub fn point_between(new: &Order, ahead: &Candidate, behind: &Candidate) -> RankPoint
    requires ahead { HasLegPrice ahead.now }
    requires behind { HasLegPrice behind.now }
    ensures { IsPoint (rank_of new.now ahead.now) (rank_of new.now behind.now) result }
{
    let (ahead, behind) = (ranking(new, ahead), ranking(new, behind));
    if ahead.cost != behind.cost {
        RankPoint::Price
    } else if ahead.implied != behind.implied {
        RankPoint::DirectFirst
    } else if ahead.month != behind.month {
        RankPoint::OtherMonth
    } else if ahead.first != behind.first {
        RankPoint::FirstMember
    } else {
        RankPoint::SecondMember
    }
}
