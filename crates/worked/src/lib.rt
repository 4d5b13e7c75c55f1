// Worked examples of R-3, R-5 and R-6, as computed theorems over the definitions, in specs/.
// The kit wants a function in every crate; this one gives the trace room that the examples start with.
#![tactic(auto)]

pub fn usual_room() -> u64 {
    200
}
