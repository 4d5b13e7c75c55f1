// Rule 5 of blocks: "An elseif, else or end without an open if, an elseif or else after its else, an unclosed if or a fifth level breaks
// rule 5", and each In names a state, parallel or final. A chart without ifs is told by one pass over its actions.
ghost use Rattle.std.specs.Prelude.{◌≡◌, true, ◌&&◌, ◌<◌};
ghost use Rattle.std.proofs.Math.Option.{some};
ghost use Rattle.definition.specs.Rows.{all, from};
ghost use Rattle.definition.specs.Tables.{row_count, transition_count, action_count, chart_of};
ghost use Rattle.definition.specs.Rules.{condition_fits, test_fits, branches_fit, row_branches_fit, transition_branches_fit};
ghost use Rattle.tables.specs.Ranges.{InTables, RowIn, TransitionIn};
ghost use Rattle.tables.specs.Actions.{fits_number};
ghost use Rattle.tables.specs.Parts.{actions_of};
ghost use Rattle.rules.specs.Nesting.{step_no};
ghost use Rattle.rules.specs.Branches.{is_plain_at};

use definition::Action;
use numbers::{Row, Transition};
use tables::columns;

// The open ifs are a 1 and behind it a binary digit for each, the innermost last: 1 where its else was seen. 0 is a broken block.
const NONE_OPEN: u64 = 1;

const FOUR_OPEN: u64 = 16;

// What an action makes of the open ifs.
fn step(ifs: u64, action: Action) -> u64
    requires { ifs < 32 }
    ensures { result ≡ step_no ifs action }
{
    match action {
        Action::Raise(_) => ifs,
        Action::Host(_) => ifs,
        Action::If(_) => { if ifs < FOUR_OPEN { ifs * 2 } else { 0 } }
        Action::ElseIf(_) => { if (2 <= ifs) & (ifs % 2 == 0) { ifs } else { 0 } }
        Action::Else => {
            if (2 <= ifs) & (ifs % 2 == 0) {
                ifs + 1
            } else {
                0
            }
        }
        Action::End => ifs / 2,
        Action::Send(_, _, _) => ifs,
        Action::Cancel(_) => ifs,
    }
}

// Whether an In may name row r.
pub fn may_be_asked(numbers: &[u64], r: Row) -> bool
    requires { RowIn numbers.now r.0 }
    ensures { result ≡ condition_fits (chart_of numbers.now) (some r.0) }
{
    let kind = tables::kind_of(numbers, r);
    tables::is_state(kind) | tables::is_parallel(kind) | tables::is_final(kind)
}

fn test_fits(numbers: &[u64], action: Action) -> bool
    requires { InTables numbers.now × (fits_number numbers.now action ≡ true) }
    ensures { result ≡ test_fits (chart_of numbers.now) action }
{
    match action {
        Action::Raise(_) => true,
        Action::Host(_) => true,
        Action::If(i) => may_be_asked(numbers, Row(i as u8)),
        Action::ElseIf(i) => may_be_asked(numbers, Row(i as u8)),
        Action::Else => true,
        Action::End => true,
        Action::Send(_, _, _) => true,
        Action::Cancel(_) => true,
    }
}

fn branches_fit(numbers: &[u64], block: &[u64]) -> bool
    requires { InTables numbers.now × (all (fits_number numbers.now) (actions_of block.now) ≡ true) }
    ensures { result ≡ branches_fit (chart_of numbers.now) (actions_of block.now) }
{
    let n = tables::actions_in(block);
    let mut ifs = NONE_OPEN;
    for k in 0..n {
        let action = tables::action_of(block, k);
        if !test_fits(numbers, action) {
            return false;
        }
        ifs = step(ifs, action);
    }
    ifs == NONE_OPEN
}

fn row_branches_fit(numbers: &[u64], r: Row) -> bool
    requires { RowIn numbers.now r.0 }
    ensures { result ≡ row_branches_fit (chart_of numbers.now) r.0 }
{
    branches_fit(numbers, tables::entry_block_of(numbers, r))
        & branches_fit(numbers, tables::exit_block_of(numbers, r))
        & branches_fit(numbers, tables::list_block_of(numbers, r))
}

fn transition_branches_fit(numbers: &[u64], t: Transition) -> bool
    requires { TransitionIn numbers.now t.0 }
    ensures { result ≡ transition_branches_fit (chart_of numbers.now) t.0 }
{
    branches_fit(numbers, tables::transition_block_of(numbers, t))
}

fn rows_branches_fit(numbers: &[u64]) -> bool
    requires { InTables numbers.now }
    ensures { result ≡ all (row_branches_fit (chart_of numbers.now)) (from (row_count numbers.now) 0) }
{
    let n = tables::row_count(numbers);
    (0..n).all(|i| row_branches_fit(numbers, Row(i as u8)))
}

fn transitions_branches_fit(numbers: &[u64]) -> bool
    requires { InTables numbers.now }
    ensures { result ≡ all (transition_branches_fit (chart_of numbers.now)) (from (transition_count numbers.now) 0) }
{
    let n = tables::transition_count(numbers);
    (0..n).all(|i| transition_branches_fit(numbers, Transition(i as u16)))
}

// Whether no action of the table is a part of an if: raise and host action have lower numbers than those.
fn all_plain(numbers: &[u64]) -> bool
    requires { InTables numbers.now }
    ensures { result ≡ all (is_plain_at numbers.now) (from (action_count numbers.now) 0) }
{
    let n = tables::action_count(numbers);
    (0..n).all(|i| tables::action_cell(numbers, i, columns::ACTION_KIND) < columns::IF)
}

// Rule 5, as far as it is about the ifs of blocks.
pub fn keeps_branches(numbers: &[u64]) -> bool
    requires { InTables numbers.now }
    ensures { result ≡ (all (row_branches_fit (chart_of numbers.now)) (from (row_count numbers.now) 0) && all (transition_branches_fit (chart_of numbers.now)) (from (transition_count numbers.now) 0)) }
{
    if all_plain(numbers) {
        return true;
    }
    if !rows_branches_fit(numbers) {
        return false;
    }
    transitions_branches_fit(numbers)
}
