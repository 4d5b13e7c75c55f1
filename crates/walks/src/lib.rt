// The walks over the tags of a text that has no fault (R-1): each tag's fact is noted where the tables want it. One walk notes the source of each transition, one
// counts the cells of the tables' lists and blocks or lays them out, one lays the cells that only a row's or a transition's tag knows.
#![tactic(auto)]

pub mod acts;
pub mod filed;
pub mod head_cells;
pub mod heads;
pub mod item_walk;
pub mod keys;
pub mod name_items;
pub mod plan;
pub mod said;
pub mod sources;
pub mod tag_items;
pub mod told;
