// Blocks: parts of the table of actions, four cells an action.
ghost use Rattle.std.specs.Prelude.{◌≡◌, ◌+◌, true, length, get_or};
ghost use Rattle.definition.specs.Tables.{row_cell, action_cell, action_at, block_at, entry_at, exit_at, list_block_at, transition_block_at};
ghost use Rattle.tables.specs.Ranges.{CellOfRow, CellOfAction, RowIn, TransitionIn, ActionIn, BlockIn};
ghost use Rattle.tables.specs.Actions.{IsAction, fits_number};
ghost use Rattle.tables.specs.Parts.{actions_of, ActionInBlock, BlockOf};

use crate::columns;
use crate::header::action_base;
use crate::rows::row_cell;
use crate::transitions::transition_cell;
use definition::Action;
use numbers::{Row, Transition};

pub fn action_cell(numbers: &[u64], a: u64, column: usize) -> u64
    requires { CellOfAction numbers.now a column }
    ensures { result ≡ action_cell numbers.now a column }
{
    let at = action_base(numbers) + a as usize * columns::ACTION_WIDTH + column;
    numbers[at]
}

// A part of the actions: four cells each.
fn actions_part(numbers: &[u64], start: u64, count: u64) -> &[u64]
    requires { BlockIn numbers.now start count }
    ensures { BlockOf numbers.now (block_at numbers.now start count) result.now }
{
    if count == 0 {
        return &numbers[..0];
    }
    let from = action_base(numbers) + start as usize * columns::ACTION_WIDTH;
    let to = from + count as usize * columns::ACTION_WIDTH;
    &numbers[from..to]
}

// The block of a row whose start and count stand from a column on.
fn row_block(numbers: &[u64], r: Row, column: usize) -> &[u64]
    requires start { CellOfRow numbers.now r.0 column }
    requires count { CellOfRow numbers.now r.0 (column + 1) }
    requires block { BlockIn numbers.now (row_cell numbers.now r.0 column) (row_cell numbers.now r.0 (column + 1)) }
    ensures { BlockOf numbers.now (block_at numbers.now (row_cell numbers.now r.0 column) (row_cell numbers.now r.0 (column + 1))) result.now }
{
    let start = row_cell(numbers, r, column);
    let count = row_cell(numbers, r, column + 1);
    actions_part(numbers, start, count)
}

// The blocks of a row: on entry, on exit, and that of its list.
pub fn entry_block_of(numbers: &[u64], r: Row) -> &[u64]
    requires { RowIn numbers.now r.0 }
    ensures { BlockOf numbers.now (entry_at numbers.now r.0) result.now }
{
    row_block(numbers, r, columns::ENTRY)
}

pub fn exit_block_of(numbers: &[u64], r: Row) -> &[u64]
    requires { RowIn numbers.now r.0 }
    ensures { BlockOf numbers.now (exit_at numbers.now r.0) result.now }
{
    row_block(numbers, r, columns::EXIT)
}

pub fn list_block_of(numbers: &[u64], r: Row) -> &[u64]
    requires { RowIn numbers.now r.0 }
    ensures { BlockOf numbers.now (list_block_at numbers.now r.0) result.now }
{
    row_block(numbers, r, columns::LIST_BLOCK)
}

pub fn transition_block_of(numbers: &[u64], t: Transition) -> &[u64]
    requires { TransitionIn numbers.now t.0 }
    ensures { BlockOf numbers.now (transition_block_at numbers.now t.0) result.now }
{
    let start = transition_cell(numbers, t, columns::BLOCK);
    let count = transition_cell(numbers, t, columns::BLOCK + 1);
    actions_part(numbers, start, count)
}

// What the first two cells of an action mean that is no send.
fn action_from(kind: u64, argument: u64) -> Action
    ensures { IsAction kind argument result }
{
    if columns::SEND <= kind {
        return Action::Cancel(argument);
    }
    match kind {
        columns::RAISE => Action::Raise(argument),
        columns::HOST => Action::Host(argument),
        columns::IF => Action::If(argument),
        columns::ELSE_IF => Action::ElseIf(argument),
        columns::ELSE => Action::Else,
        _ => Action::End,
    }
}

// How many actions a block has, and what each does.
pub fn actions_in(block: &[u64]) -> usize
    ensures { result ≡ length (actions_of block.now) }
{
    block.len() / columns::ACTION_WIDTH
}

pub fn action_of(block: &[u64], k: usize) -> Action
    requires { ActionInBlock block.now k }
    ensures { result ≡ get_or (actions_of block.now) k (Action.Raise 0) }
{
    let at = k * columns::ACTION_WIDTH;
    let kind = block[at + columns::ACTION_KIND];
    let argument = block[at + columns::ARGUMENT];
    if kind == columns::SEND {
        return Action::Send(
            argument,
            block[at + columns::DELAY],
            block[at + columns::SEND_ID],
        );
    }
    action_from(kind, argument)
}

// What an action of the whole table does, in a block or not.
pub fn action_at(numbers: &[u64], a: u64) -> Action
    requires { ActionIn numbers.now a }
    ensures { (result ≡ action_at numbers.now a) × (fits_number numbers.now result ≡ true) }
{
    let kind = action_cell(numbers, a, columns::ACTION_KIND);
    let argument = action_cell(numbers, a, columns::ARGUMENT);
    if kind == columns::SEND {
        let delay = action_cell(numbers, a, columns::DELAY);
        let id = action_cell(numbers, a, columns::SEND_ID);
        return Action::Send(argument, delay, id);
    }
    action_from(kind, argument)
}
