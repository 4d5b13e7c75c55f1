// The counts of the header: how many numbers there are to be, and where each table begins.
ghost use Rattle.std.specs.Prelude.{◌≡◌, get_or};
ghost use Rattle.definition.specs.Tables.{row_count, transition_count, reference_count, descriptor_count, action_count, name_count, transition_base, reference_base, descriptor_base, action_base, tables_size};
ghost use Rattle.definition.specs.Rules.{counts_fit, compiled_size};
ghost use Rattle.tables.specs.Ranges.{Counts, Sized};

use crate::{columns, limits};

// The number at a place, 0 past the end.
pub fn cell(numbers: &[u64], at: usize) -> u64
    ensures { result ≡ get_or numbers.now at 0 }
{
    if at < numbers.len() {
        return numbers[at];
    }
    0
}

pub fn row_count(numbers: &[u64]) -> u64
    ensures { result ≡ row_count numbers.now }
{
    cell(numbers, columns::ROWS)
}

pub fn transition_count(numbers: &[u64]) -> u64
    ensures { result ≡ transition_count numbers.now }
{
    cell(numbers, columns::TRANSITIONS)
}

pub fn reference_count(numbers: &[u64]) -> u64
    ensures { result ≡ reference_count numbers.now }
{
    cell(numbers, columns::REFERENCES)
}

pub fn descriptor_count(numbers: &[u64]) -> u64
    ensures { result ≡ descriptor_count numbers.now }
{
    cell(numbers, columns::DESCRIPTORS)
}

pub fn action_count(numbers: &[u64]) -> u64
    ensures { result ≡ action_count numbers.now }
{
    cell(numbers, columns::ACTIONS)
}

pub fn name_count(numbers: &[u64]) -> u64
    ensures { result ≡ name_count numbers.now }
{
    cell(numbers, columns::NAMES)
}

// Whether every count is within its limit.
pub fn counts_fit(numbers: &[u64]) -> bool
    ensures { result ≡ counts_fit numbers.now }
{
    let rows = row_count(numbers);
    let transitions = transition_count(numbers);
    let names = name_count(numbers);
    let references = reference_count(numbers);
    let descriptors = descriptor_count(numbers);
    let actions = action_count(numbers);
    (1 <= rows)
        & (rows <= limits::MOST_ROWS)
        & (transitions <= limits::MOST_TRANSITIONS)
        & (names <= limits::MOST_NAMES)
        & (references <= limits::ROOM_FOR_REFERENCES)
        & (descriptors <= limits::ROOM_FOR_DESCRIPTORS)
        & (actions <= limits::ROOM_FOR_ACTIONS)
}

// How many numbers the tables have by their header.
pub fn tables_size(numbers: &[u64]) -> usize
    requires { Counts numbers.now }
    ensures { result ≡ tables_size numbers.now }
{
    columns::HEADER
        + row_count(numbers) as usize * columns::ROW_WIDTH
        + transition_count(numbers) as usize * columns::TRANSITION_WIDTH
        + reference_count(numbers) as usize
        + descriptor_count(numbers) as usize
        + action_count(numbers) as usize * columns::ACTION_WIDTH
}

// How many numbers its compiled chart has.
pub fn compiled_size(numbers: &[u64]) -> usize
    requires { Counts numbers.now }
    ensures { result ≡ compiled_size numbers.now }
{
    tables_size(numbers)
        + row_count(numbers) as usize * columns::ROW_SET_WORDS
        + transition_count(numbers) as usize * columns::TRANSITION_SET_WORDS
}

pub fn transition_base(numbers: &[u64]) -> usize
    requires { Sized numbers.now }
    ensures { result ≡ transition_base numbers.now }
{
    columns::HEADER + numbers[columns::ROWS] as usize * columns::ROW_WIDTH
}

pub fn reference_base(numbers: &[u64]) -> usize
    requires { Sized numbers.now }
    ensures { result ≡ reference_base numbers.now }
{
    transition_base(numbers) + numbers[columns::TRANSITIONS] as usize * columns::TRANSITION_WIDTH
}

pub fn descriptor_base(numbers: &[u64]) -> usize
    requires { Sized numbers.now }
    ensures { result ≡ descriptor_base numbers.now }
{
    reference_base(numbers) + numbers[columns::REFERENCES] as usize
}

pub fn action_base(numbers: &[u64]) -> usize
    requires { Sized numbers.now }
    ensures { result ≡ action_base numbers.now }
{
    descriptor_base(numbers) + numbers[columns::DESCRIPTORS] as usize
}
