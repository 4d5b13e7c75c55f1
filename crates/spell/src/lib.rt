// A chart's text, spelt part by part (R-4): parts, numbers, names, lists, conditions, actions, blocks. Each function lays its part over the place from `at` on, as far
// as the place and 32,768 bytes go, and answers where the next part begins, at most 32,769: over a place of no bytes it measures.
#![tactic(auto)]

pub mod actions;
pub mod blocks;
pub mod lists;
pub mod parts;
pub mod sends;
pub mod values;
