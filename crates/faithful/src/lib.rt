// Demand 3: the program on the compiled chart and the plain follower on the chart's own rows are alike, call after call. The theorems stand in specs/.
#![tactic(auto)]

// The kit wants a function in every crate.
pub fn nothing() {}
