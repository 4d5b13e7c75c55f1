// Which transitions a round takes, and what they exit: effective targets, domains, exit sets, conflicts.
#![tactic(auto)]

pub use conflicts::select;
pub use domains::{NO_DOMAIN, domain, domain_of, exit_set, fixed_domains};
use rowset::RowSet;
pub use targets::{add_stand_ins, as_stored, effective_targets, stored_at};

pub mod conflicts;
pub mod domains;
pub mod targets;

// What a history has stored.
// Kept: the statement of this form is "let .. else on an enum Stored or Nothing" (docs/definition.md, 118).
#[derive(Clone, Copy)]
pub enum Stored {
    Nothing,
    Stored(RowSet),
}

// The domain of each transition that has targets and no history among them, and 256 for the others: theirs is sought in each round.
#[derive(Drop)]
pub struct FixedDomains {
    pub domains: [u16; 512],
}

// The first len of the lent items, in selection order, and the rows that they exit.
#[derive(Clone, Copy)]
pub struct Selected {
    pub len: usize,
    pub exits: RowSet,
}
