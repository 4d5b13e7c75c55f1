// What a set of transitions does to the configuration: stored history, the entry set, the plan of a round and its effects.
#![tactic(auto)]

pub use planning::{
    closing_effects, first_effects, next_configuration, plan_effects, plan_round, plan_start,
};
use rowset::RowSet;
pub use storing::store;

pub mod entry;
mod initial;
pub mod planning;
pub mod storing;
mod targets;

// What the plan of a round goes by: the chart with its atomic rows, the configuration and the stored history before the round, and the rows that it leaves.
#[derive(Clone, Copy)]
pub struct Round<'a> {
    pub chart: &'a [u64],
    pub atoms: RowSet,
    pub conf: RowSet,
    pub history: &'a [u64],
    pub out: RowSet,
}

// The entry set, and the rows of it whose child came by default.
#[derive(Clone, Copy)]
pub struct Entered {
    pub set: RowSet,
    pub by_default: RowSet,
}

// The configuration before the round, the rows that stay, those that are left, the entry set with its rows whose child came by default,
// and the histories that fall to their default lists.
#[derive(Clone, Copy)]
pub struct Plan {
    pub conf: RowSet,
    pub stay: RowSet,
    pub out: RowSet,
    pub set: RowSet,
    pub by_default: RowSet,
    pub fallen: RowSet,
}
