// Charts and lists of calls with what the second program answers, as computed theorems over the definitions, in specs/.
// The kit wants a function in every crate; this one gives the trace room that the examples start with.
#![tactic(auto)]

pub fn usual_room() -> u64 {
    1000
}
