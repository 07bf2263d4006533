//! Tests of whole days: of day lines, and `spread_host`; and in threads.
#![tactic(auto)]

#[cfg(test)]
mod expect;
#[cfg(test)]
mod headline;
#[cfg(test)]
mod host;
#[cfg(test)]
mod live;
#[cfg(test)]
mod rules;
