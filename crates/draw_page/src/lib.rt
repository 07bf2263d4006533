//! The page of a day's picture, as an SVG file: a panel for each instrument that traded, of the course of its prices.
//!
//! `panel` gives each instrument that traded its scale and its points, and `page` writes what is drawn of them.
#![tactic(auto)]

mod legend;
mod page;
mod panel;
mod style;

pub use page::page_of;
