//! Tests of what stands below a day and beside the market: bytes, messages and sessions (`spread_rules_ids` to `fix_session`), day
//! lines.
#![tactic(auto)]

#[cfg(test)]
mod base;
#[cfg(test)]
mod expect;
#[cfg(test)]
mod lines;
#[cfg(test)]
mod session;
#[cfg(test)]
mod support;
#[cfg(test)]
mod values;
#[cfg(test)]
mod wire;
