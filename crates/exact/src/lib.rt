// Exactly which histories fall to their default lists in a round and at a start, and that their default blocks run (R-3, specs/Fallen.antt);
// exactly which blocks rule 5 accepts (R-5, specs/Nesting.antt): theorems in specs/. The kit wants a function in every crate.
#![tactic(auto)]

pub fn none() -> u64 {
    0
}
