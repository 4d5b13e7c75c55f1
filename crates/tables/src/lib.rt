// Readers of the lent chart. Where a number stands is known in this crate, and where a set stands in crate chart; rule 1 and the compiler name columns.
#![tactic(auto)]

pub use blocks::{
    action_at, action_cell, action_of, actions_in, entry_block_of, exit_block_of, list_block_of,
    transition_block_of,
};
pub use header::{
    action_count, cell, compiled_size, counts_fit, descriptor_count, name_count, reference_count,
    row_count, tables_size, transition_count,
};
pub use kinds::{is_final, is_history, is_parallel, is_root, is_shallow, is_state, may_stand};
pub use rows::{
    id_of, kind_of, list_of, parent_of, parent_row, reference_cell, row_at, row_cell, with_rows,
};
pub use sets::{put_set, set_at};
pub use transitions::{
    condition_of, descriptor_cell, descriptors_of, is_internal, name_at, slot_of, source_of,
    targets_of, transition_cell,
};

pub mod blocks;
pub mod columns;
pub mod header;
pub mod limits;
pub mod rows;
pub mod sets;
pub mod transitions;
