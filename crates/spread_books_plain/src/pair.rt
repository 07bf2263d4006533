//! What a pair of fronts costs.

/// What a pair of that other month costs who meets it.
#[derive(Clone, Copy)]
pub struct PairCost {
    pub cost: i64,
    /// As wide as the cost: a record with a gap in it is copied slowly, and one is copied in each turn of the search.
    pub other_month: u64,
}
