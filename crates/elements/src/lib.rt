// The elements of a chart's text (R-4): transitions, a row's list, and the start tag of a row up to its end. As in crate spell each function lays its part over the place
// from `at` on and answers where the next begins.
#![tactic(auto)]

pub mod lists;
pub mod starts;
pub mod transitions;
