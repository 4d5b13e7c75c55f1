// The journal of a session replays it (R-10), and the cut of a run with a journal (R-13): statements in specs/Ledger and specs/Replays, proofs beside them. The definition is crate
// recorded. The kit wants a function in every crate; this one gives the number of entries of a journal that has entered nothing.
#![tactic(auto)]

pub fn no_entries() -> u64 {
    0
}
