// The limits of rule 1, as the definition has them.
pub const MOST_ROWS: u64 = 256;

pub const MOST_TRANSITIONS: u64 = 512;

pub const MOST_NAMES: u64 = 768;

pub const MOST_DESCRIPTORS: u64 = 4;

pub const MOST_TARGETS: u64 = 8;

pub const MOST_ACTIONS: u64 = 32;

// The other tables have room for every chart within these.
pub const ROOM_FOR_REFERENCES: u64 = MOST_ROWS * MOST_ROWS + MOST_TRANSITIONS * MOST_TARGETS;

pub const ROOM_FOR_DESCRIPTORS: u64 = MOST_TRANSITIONS * MOST_DESCRIPTORS;

pub const ROOM_FOR_ACTIONS: u64 = (MOST_ROWS * 3 + MOST_TRANSITIONS) * MOST_ACTIONS;

pub const SLOT_SIZE: usize = 64;

// What stands for none in the columns parent, id and condition.
pub const NO_NUMBER: u64 = 65535;
