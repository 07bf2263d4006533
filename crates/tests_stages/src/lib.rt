//! Tests of the stages that a day goes through, one by one: rings and gateways (`gate_link_stages`, `gate_link_sessions`,
//! `gate_link`), messages (`spread_report`), the texts of journals and days (`spread_journal_lines`, `spread_journal`,
//! `text_day`), and a text's way from thread to thread (`text_ring`).
#![tactic(auto)]

#[cfg(test)]
mod blocks;
#[cfg(test)]
mod expect;
#[cfg(test)]
mod journal;
#[cfg(test)]
mod link;
#[cfg(test)]
mod report;
#[cfg(test)]
mod rules;
#[cfg(test)]
mod said;
#[cfg(test)]
mod text;
