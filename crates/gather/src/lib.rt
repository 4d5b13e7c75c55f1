// What a text is searched for first, each by one walk over its marks: whether it is of the grammar, with the ids of its rows by place and length, and the
// first of its faults (R-1, 1.9 to 1.14).
#![tactic(auto)]

pub mod faults;
pub mod ids;
