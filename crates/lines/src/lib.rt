// What the programs over the crates share: how the numbers and names of a line are read and printed, what stands in the buffers that hold lent places, sums of them, and ways to change a cell.
#![tactic(auto)]

pub use buffers::{
    Part, behind_guard, fill_bytes, fill_trace, fill_words, least, mix, sum_bytes, sum_words,
    unwritten,
};
pub use line_numbers::{Two, put_word, read_numbers, read_two, size};
pub use printing::{put, show, show_answer, show_number, show_sum};
pub use reading::read_whole;
pub use slots::{put_byte, read_name, read_slots};
use tables::{columns, limits};

pub mod buffers;
pub mod line_numbers;
pub mod printing;
pub mod reading;
pub mod slots;

const MORE: usize = 256;

// The buffers have room for a chart of as much as there may be and a little more, for what it compiles to and for its names.
pub const NUMBERS: usize = columns::HEADER
    + limits::MOST_ROWS as usize * columns::ROW_WIDTH
    + limits::MOST_TRANSITIONS as usize * columns::TRANSITION_WIDTH
    + limits::ROOM_FOR_REFERENCES as usize
    + limits::ROOM_FOR_DESCRIPTORS as usize
    + limits::ROOM_FOR_ACTIONS as usize * columns::ACTION_WIDTH
    + MORE;

pub const PLACE: usize = NUMBERS
    + limits::MOST_ROWS as usize * 16
    + limits::MOST_TRANSITIONS as usize * 4;

pub const NAMES: usize = limits::MOST_NAMES as usize * limits::SLOT_SIZE + MORE;

pub const FIRST_SUM: u64 = 88172645463325252;

// In how many ways a cell is changed.
pub const WAYS: usize = 6;

pub fn changed(way: usize, v: u64) -> u64 {
    match way {
        0 => std::num::wrapping_add_u64(v, 1),
        1 => std::num::wrapping_sub_u64(v, 1),
        2 => v ^ 2,
        3 => v ^ 0x8000000000000000,
        4 => 0,
        _ => 65535,
    }
}

pub fn changed_byte(way: usize, b: u8) -> u8 {
    match way {
        0 => b ^ 1,
        1 => 0,
        2 => b' ',
        3 => b'*',
        4 => b'.',
        _ => b'a',
    }
}
