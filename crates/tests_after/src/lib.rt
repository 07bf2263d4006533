//! Tests of what looks into a day that is over: `explain_turns`, `explain_entries` and `explain_day`; `draw_course`,
//! `draw_page` and `draw_day`. And of the phases of `bench`, `bench_phases` among them.
#![tactic(auto)]

#[cfg(test)]
mod drawn;
#[cfg(test)]
mod expect;
#[cfg(test)]
mod explained;
#[cfg(test)]
mod measured;
#[cfg(test)]
mod rules;
