// Rule 1: every number within its table or range, the places lent of the right size.
ghost use Rattle.std.specs.Prelude.{◌≡◌, true, ◌+◌, ◌<◌};
ghost use Rattle.definition.specs.Rows.{all, from};
ghost use Rattle.definition.specs.Tables.{row_count, transition_count, reference_count, descriptor_count, action_count, row_cell, transition_cell};
ghost use Rattle.definition.specs.Rules.{inside, optional_below, counts_fit, sizes_fit, block_fits, row_in_range, transition_in_range, reference_in_range, descriptor_in_range, action_in_range, rule1};
ghost use Rattle.tables.specs.Ranges.{Sized};
ghost use Rattle.rules1.specs.Arguments.{ArgumentIs};
ghost use Rattle.rules1.specs.Inside.{is_short_list, is_nothing, has_no_parts};

use definition::Kind;
use numbers::{Row, Transition};
use tables::{columns, limits};

const LAST_HOST_ACTION: u64 = 65535;

const MOST_DELAY: u64 = 4294967295;

// A start and a count in a table of so many. Their sum may be more than 64 bits hold.
fn is_inside(total: u64, start: u64, count: u64) -> bool
    ensures { result ≡ inside total start count }
{
    if total < count {
        return false;
    }
    start <= total - count
}

fn is_optional_below(n: u64, x: u64) -> bool
    ensures { result ≡ optional_below n x }
{
    (x == limits::NO_NUMBER) | (x < n)
}

fn sizes_fit(numbers: &[u64], names: &[u8], room: usize, name_room: usize) -> bool
    requires { counts_fit numbers.now ≡ true }
    ensures { result ≡ sizes_fit numbers.now names.now room name_room }
{
    (numbers.len() == tables::tables_size(numbers))
        & (names.len() == tables::name_count(numbers) as usize * limits::SLOT_SIZE)
        & (room == tables::compiled_size(numbers))
        & (name_room == names.len())
}

fn block_fits(numbers: &[u64], start: u64, count: u64) -> bool
    ensures { result ≡ block_fits numbers.now start count }
{
    is_inside(tables::action_count(numbers), start, count) & (count <= limits::MOST_ACTIONS)
}

// A block of a row, by the column of its start.
fn row_block_fits(numbers: &[u64], r: Row, column: usize) -> bool
    requires { Sized numbers.now × (r.0 < row_count numbers.now) × (column < 10) }
    ensures { result ≡ block_fits numbers.now (row_cell numbers.now r.0 column) (row_cell numbers.now r.0 (column + 1)) }
{
    let start = tables::row_cell(numbers, r, column);
    let count = tables::row_cell(numbers, r, column + 1);
    block_fits(numbers, start, count)
}

// Whether a block or the list of a row, by the column of its start, is nothing at the start of its table.
fn is_nothing(numbers: &[u64], r: Row, column: usize) -> bool
    requires { Sized numbers.now × (r.0 < row_count numbers.now) × (column < 10) }
    ensures { result ≡ is_nothing (row_cell numbers.now r.0 column) (row_cell numbers.now r.0 (column + 1)) }
{
    let start = tables::row_cell(numbers, r, column);
    let count = tables::row_cell(numbers, r, column + 1);
    (start == 0) & (count == 0)
}

// Whether a row has no block and no list, as most rows have none.
pub fn has_no_parts(numbers: &[u64], r: Row) -> bool
    requires { Sized numbers.now × (r.0 < row_count numbers.now) }
    ensures { result ≡ has_no_parts numbers.now r.0 }
{
    is_nothing(numbers, r, columns::ENTRY)
        & is_nothing(numbers, r, columns::EXIT)
        & is_nothing(numbers, r, columns::LIST)
        & is_nothing(numbers, r, columns::LIST_BLOCK)
}

// Nothing is inside every table: of a row without parts only the other cells are judged.
fn row_in_range(numbers: &[u64], r: Row) -> bool
    requires { Sized numbers.now × (r.0 < row_count numbers.now) }
    ensures { result ≡ row_in_range numbers.now r.0 }
{
    let kind = tables::row_cell(numbers, r, columns::KIND);
    let parent = tables::row_cell(numbers, r, columns::PARENT);
    let id = tables::row_cell(numbers, r, columns::ID);
    let own = (kind <= u64::from(Kind::Deep))
        & is_optional_below(tables::row_count(numbers), parent)
        & is_optional_below(tables::name_count(numbers), id);
    if has_no_parts(numbers, r) {
        return own;
    }
    let start = tables::row_cell(numbers, r, columns::LIST);
    let count = tables::row_cell(numbers, r, columns::LIST + 1);
    own & row_block_fits(numbers, r, columns::ENTRY)
        & row_block_fits(numbers, r, columns::EXIT)
        & is_inside(tables::reference_count(numbers), start, count)
        & row_block_fits(numbers, r, columns::LIST_BLOCK)
}

// A list of a transition, by the column of its start: inside a table of so many, and short.
fn transition_list_fits(
    numbers: &[u64],
    t: Transition,
    column: usize,
    total: u64,
    most: u64,
) -> bool
    requires { Sized numbers.now × (t.0 < transition_count numbers.now) × (column < 8) }
    ensures { result ≡ is_short_list total most (transition_cell numbers.now t.0 column) (transition_cell numbers.now t.0 (column + 1)) }
{
    let start = tables::transition_cell(numbers, t, column);
    let count = tables::transition_cell(numbers, t, column + 1);
    is_inside(total, start, count) & (count <= most)
}

fn transition_in_range(numbers: &[u64], t: Transition) -> bool
    requires { Sized numbers.now × (t.0 < transition_count numbers.now) }
    ensures { result ≡ transition_in_range numbers.now t.0 }
{
    let source = tables::transition_cell(numbers, t, columns::SOURCE);
    let condition = tables::transition_cell(numbers, t, columns::CONDITION);
    let internal = tables::transition_cell(numbers, t, columns::INTERNAL);
    let rows = tables::row_count(numbers);
    let descriptors = tables::descriptor_count(numbers);
    let references = tables::reference_count(numbers);
    let actions = tables::action_count(numbers);
    (source < rows)
        & transition_list_fits(
            numbers,
            t,
            columns::EVENTS,
            descriptors,
            limits::MOST_DESCRIPTORS,
        )
        & is_optional_below(rows, condition)
        & (internal <= 1)
        & transition_list_fits(
            numbers,
            t,
            columns::TARGETS,
            references,
            limits::MOST_TARGETS,
        )
        & transition_list_fits(numbers, t, columns::BLOCK, actions, limits::MOST_ACTIONS)
}

// The number in the second cell of an action that is no send. An elseif is the last kind that has a row of In.
fn argument_fits(numbers: &[u64], kind: u64, argument: u64) -> bool
    ensures { ArgumentIs numbers.now kind argument result }
{
    if columns::SEND <= kind {
        return argument < tables::name_count(numbers);
    }
    if kind == columns::RAISE {
        return argument < tables::name_count(numbers);
    }
    if kind == columns::HOST {
        return argument <= LAST_HOST_ACTION;
    }
    if kind <= columns::ELSE_IF {
        return argument < tables::row_count(numbers);
    }
    argument == 0
}

fn action_in_range(numbers: &[u64], a: u64) -> bool
    requires { Sized numbers.now × (a < action_count numbers.now) }
    ensures { result ≡ action_in_range numbers.now a }
{
    let kind = tables::action_cell(numbers, a, columns::ACTION_KIND);
    let argument = tables::action_cell(numbers, a, columns::ARGUMENT);
    let delay = tables::action_cell(numbers, a, columns::DELAY);
    let id = tables::action_cell(numbers, a, columns::SEND_ID);
    if kind == columns::SEND {
        let n = tables::name_count(numbers);
        return (argument < n) & (delay <= MOST_DELAY) & is_optional_below(n, id);
    }
    (kind <= columns::CANCEL) & argument_fits(numbers, kind, argument) & (delay == 0) & (id == 0)
}

fn rows_in_range(numbers: &[u64]) -> bool
    requires { Sized numbers.now }
    ensures { result ≡ all (row_in_range numbers.now) (from (row_count numbers.now) 0) }
{
    (0..tables::row_count(numbers)).all(|i| row_in_range(numbers, Row(i as u8)))
}

fn transitions_in_range(numbers: &[u64]) -> bool
    requires { Sized numbers.now }
    ensures { result ≡ all (transition_in_range numbers.now) (from (transition_count numbers.now) 0) }
{
    (0..tables::transition_count(numbers)).all(|i| transition_in_range(
        numbers,
        Transition(i as u16),
    ))
}

fn references_in_range(numbers: &[u64]) -> bool
    requires { Sized numbers.now }
    ensures { result ≡ all (reference_in_range numbers.now) (from (reference_count numbers.now) 0) }
{
    let rows = tables::row_count(numbers);
    (0..tables::reference_count(numbers)).all(|i| tables::reference_cell(numbers, i) < rows)
}

fn descriptors_in_range(numbers: &[u64]) -> bool
    requires { Sized numbers.now }
    ensures { result ≡ all (descriptor_in_range numbers.now) (from (descriptor_count numbers.now) 0) }
{
    let names = tables::name_count(numbers);
    (0..tables::descriptor_count(numbers)).all(|i| tables::descriptor_cell(numbers, i) < names)
}

fn actions_in_range(numbers: &[u64]) -> bool
    requires { Sized numbers.now }
    ensures { result ≡ all (action_in_range numbers.now) (from (action_count numbers.now) 0) }
{
    (0..tables::action_count(numbers)).all(|a| action_in_range(numbers, a))
}

// The counts are judged before anything is worked out from them.
pub fn keeps_sizes(numbers: &[u64], names: &[u8], room: usize, name_room: usize) -> bool
    ensures { result ≡ rule1 numbers.now names.now room name_room }
{
    if !tables::counts_fit(numbers) {
        return false;
    }
    if !sizes_fit(numbers, names, room, name_room) {
        return false;
    }
    if !rows_in_range(numbers) {
        return false;
    }
    if !transitions_in_range(numbers) {
        return false;
    }
    if !references_in_range(numbers) {
        return false;
    }
    if !descriptors_in_range(numbers) {
        return false;
    }
    actions_in_range(numbers)
}
