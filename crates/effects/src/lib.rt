// Writes the effects of a round into lent places, and counts them: each into a trace, and what queues a name, sends or cancels into a place of notes
// (joins) too: 32 cells for the joins, one that holds how many sends and cancels are passed over, and two for each of the others. A number that finds no
// room is counted alone, so a round can be worked out before its entries are known to fit: into a draft, or with no place to write into.
#![tactic(auto)]

pub use entries::entry_effects;
pub use exits::exit_effects;
pub use transitions::transition_effects;

mod blocks;
mod branches;
mod done;
pub mod entries;
pub mod exits;
pub mod transitions;
pub mod writing;

// How many entries there are, how many names join the internal queue, and how many sends and cancels there are.
#[derive(Clone, Copy)]
pub struct Tally {
    pub entries: u64,
    pub names: u64,
    pub timers: u64,
}
