// Where each number stands: the counts of the header, and the columns of each table.
pub const ROWS: usize = 0;

pub const TRANSITIONS: usize = 1;

pub const REFERENCES: usize = 2;

pub const DESCRIPTORS: usize = 3;

pub const ACTIONS: usize = 4;

pub const NAMES: usize = 5;

pub const HEADER: usize = 6;

// A row. A block or a list is a start, and a count in the column after it.
pub const KIND: usize = 0;

pub const PARENT: usize = 1;

pub const ID: usize = 2;

pub const ENTRY: usize = 3;

pub const EXIT: usize = 5;

pub const LIST: usize = 7;

pub const LIST_BLOCK: usize = 9;

pub const ROW_WIDTH: usize = 11;

// A transition.
pub const SOURCE: usize = 0;

pub const EVENTS: usize = 1;

pub const CONDITION: usize = 3;

pub const INTERNAL: usize = 4;

pub const TARGETS: usize = 5;

pub const BLOCK: usize = 7;

pub const TRANSITION_WIDTH: usize = 9;

// An action.
pub const ACTION_KIND: usize = 0;

pub const ARGUMENT: usize = 1;

pub const DELAY: usize = 2;

pub const SEND_ID: usize = 3;

pub const ACTION_WIDTH: usize = 4;

// The kinds of actions. A send is the one that has something in its last two cells.
pub const RAISE: u64 = 0;

pub const HOST: u64 = 1;

pub const IF: u64 = 2;

pub const ELSE_IF: u64 = 3;

pub const ELSE: u64 = 4;

pub const END: u64 = 5;

pub const SEND: u64 = 6;

pub const CANCEL: u64 = 7;

// Behind the tables: the words of a set of rows, of a row's four sets, and of a transition's one.
pub const SET_WIDTH: usize = 4;

pub const ROW_SET_WORDS: usize = 16;

pub const TRANSITION_SET_WORDS: usize = 4;

// The columns of sets: how many words for each row stand before a column.
pub const ANCESTORS: usize = 0;

pub const DESCENDANTS: usize = 4;

pub const CHILDREN: usize = 8;

pub const DEFAULT_TARGETS: usize = 12;

pub const ANCHORS: usize = 16;
