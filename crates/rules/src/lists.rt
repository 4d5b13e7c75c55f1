// Rule 4: the lists and the blocks of rows, and the targets of transitions.
ghost use Rattle.std.specs.Prelude.{◌≡◌, true, ◌&&◌};
ghost use Rattle.definition.specs.Rows.{all, from};
ghost use Rattle.definition.specs.Chart.{is_history};
ghost use Rattle.definition.specs.Tables.{row_count, transition_count, kind_at, chart_of};
ghost use Rattle.definition.specs.Tree.{is_descendant, is_child};
ghost use Rattle.definition.specs.Rules.{default_fits, list_fits, blocks_fit, row_lists_fit, is_no_root, targets_fit, rule3, rule4};
ghost use Rattle.tables.specs.Ranges.{RowIn, TransitionIn, RowsIn};
ghost use Rattle.rules3.specs.Parents.{TreeIn};
ghost use Rattle.rules3.specs.Ancestry.{Climbed};

use crate::apart::are_apart;
use crate::initial::all_under;
use numbers::{Row, Transition};

fn is_descendant(numbers: &[u64], sets: &[u64], a: Row, r: Row) -> bool
    requires { Climbed numbers.now sets.now × RowIn numbers.now r.0 }
    ensures { result ≡ is_descendant (chart_of numbers.now) a.0 r.0 }
{
    !tables::is_history(tables::kind_of(numbers, r)) & rules3::set_of(sets, r).has(a)
}

fn all_descendants(numbers: &[u64], sets: &[u64], a: Row, list: &[u64]) -> bool
    requires { Climbed numbers.now sets.now × RowsIn numbers.now list.now }
    ensures { result ≡ all (is_descendant (chart_of numbers.now) a.0) list.now }
{
    list.iter()
        .all(|&x| is_descendant(numbers, sets, a, Row(x as u8)))
}

fn is_child(numbers: &[u64], a: Row, r: Row) -> bool
    requires { RowIn numbers.now r.0 }
    ensures { result ≡ is_child (chart_of numbers.now) a.0 r.0 }
{
    let p = tables::parent_of(numbers, r);
    !tables::is_history(tables::kind_of(numbers, r)) & ((p < r.0 as u64) & (a.0 as u64 == p))
}

fn all_children(numbers: &[u64], a: Row, list: &[u64]) -> bool
    requires { RowsIn numbers.now list.now }
    ensures { result ≡ all (is_child (chart_of numbers.now) a.0) list.now }
{
    list.iter().all(|&x| is_child(numbers, a, Row(x as u8)))
}

fn is_no_root(numbers: &[u64], r: Row) -> bool
    requires { RowIn numbers.now r.0 }
    ensures { result ≡ is_no_root (chart_of numbers.now) r.0 }
{
    !tables::is_root(tables::kind_of(numbers, r))
}

fn no_roots(numbers: &[u64], list: &[u64]) -> bool
    requires { RowsIn numbers.now list.now }
    ensures { result ≡ all (is_no_root (chart_of numbers.now)) list.now }
{
    list.iter().all(|&x| is_no_root(numbers, Row(x as u8)))
}

fn default_fits(numbers: &[u64], sets: &[u64], r: Row) -> bool
    requires { Climbed numbers.now sets.now × RowIn numbers.now r.0 × (is_history (kind_at numbers.now r.0) ≡ true) }
    ensures { result ≡ default_fits (chart_of numbers.now) r.0 }
{
    let list = tables::list_of(numbers, r);
    if list.len() == 0 {
        return false;
    }
    let p = tables::parent_row(numbers, r);
    if tables::is_shallow(tables::kind_of(numbers, r)) {
        return all_children(numbers, p, list);
    }
    all_descendants(numbers, sets, p, list)
}

// Of the rows that are no history the root and the compounds may have a list. It holds rows under them: a state that has one, or a history, is a compound.
fn list_fits(numbers: &[u64], sets: &[u64], r: Row) -> bool
    requires { Climbed numbers.now sets.now × RowIn numbers.now r.0 }
    ensures { result ≡ list_fits (chart_of numbers.now) r.0 }
{
    let kind = tables::kind_of(numbers, r);
    if tables::is_history(kind) {
        return default_fits(numbers, sets, r);
    }
    let list = tables::list_of(numbers, r);
    if list.len() == 0 {
        let block = tables::list_block_of(numbers, r);
        return block.len() == 0;
    }
    if !(tables::is_root(kind) | tables::is_state(kind)) {
        return false;
    }
    all_under(numbers, sets, r, list)
}

fn blocks_fit(numbers: &[u64], r: Row) -> bool
    requires { RowIn numbers.now r.0 }
    ensures { result ≡ blocks_fit (chart_of numbers.now) r.0 }
{
    let kind = tables::kind_of(numbers, r);
    let root = tables::is_root(kind);
    let block = tables::list_block_of(numbers, r);
    let entry = tables::entry_block_of(numbers, r);
    let exit = tables::exit_block_of(numbers, r);
    (!root | (block.len() == 0))
        & (!(root | tables::is_history(kind)) | ((entry.len() == 0) & (exit.len() == 0)))
}

fn list_and_blocks_fit(numbers: &[u64], sets: &[u64], r: Row) -> bool
    requires { Climbed numbers.now sets.now × RowIn numbers.now r.0 }
    ensures { result ≡ (list_fits (chart_of numbers.now) r.0 && blocks_fit (chart_of numbers.now) r.0) }
{
    list_fits(numbers, sets, r) & blocks_fit(numbers, r)
}

// Most lists have fewer than two rows, which stand apart: for these no call is made, here and for targets.
fn row_parts_fit(numbers: &[u64], sets: &[u64], r: Row) -> bool
    requires { Climbed numbers.now sets.now × RowIn numbers.now r.0 }
    ensures { result ≡ row_lists_fit (chart_of numbers.now) r.0 }
{
    let list = tables::list_of(numbers, r);
    if list.len() < 2 {
        return list_and_blocks_fit(numbers, sets, r);
    }
    if !are_apart(numbers, sets, list) {
        return false;
    }
    list_and_blocks_fit(numbers, sets, r)
}

// A row without any keeps the rule, unless it is a history: a default list is not empty.
fn row_lists_fit(numbers: &[u64], sets: &[u64], r: Row) -> bool
    requires { Climbed numbers.now sets.now × RowIn numbers.now r.0 }
    ensures { result ≡ row_lists_fit (chart_of numbers.now) r.0 }
{
    if rules1::has_no_parts(numbers, r) {
        return !tables::is_history(tables::kind_of(numbers, r));
    }
    row_parts_fit(numbers, sets, r)
}

fn lists_fit(numbers: &[u64], sets: &[u64]) -> bool
    requires { Climbed numbers.now sets.now }
    ensures { result ≡ all (row_lists_fit (chart_of numbers.now)) (from (row_count numbers.now) 0) }
{
    let n = tables::row_count(numbers);
    (0..n).all(|i| row_lists_fit(numbers, sets, Row(i as u8)))
}

fn many_targets_fit(numbers: &[u64], sets: &[u64], t: Transition) -> bool
    requires { Climbed numbers.now sets.now × TransitionIn numbers.now t.0 }
    ensures { result ≡ targets_fit (chart_of numbers.now) t.0 }
{
    let targets = tables::targets_of(numbers, t);
    if !are_apart(numbers, sets, targets) {
        return false;
    }
    no_roots(numbers, targets)
}

fn targets_fit(numbers: &[u64], sets: &[u64], t: Transition) -> bool
    requires { Climbed numbers.now sets.now × TransitionIn numbers.now t.0 }
    ensures { result ≡ targets_fit (chart_of numbers.now) t.0 }
{
    let targets = tables::targets_of(numbers, t);
    if targets.len() < 2 {
        return no_roots(numbers, targets);
    }
    many_targets_fit(numbers, sets, t)
}

fn all_targets_fit(numbers: &[u64], sets: &[u64]) -> bool
    requires { Climbed numbers.now sets.now }
    ensures { result ≡ all (targets_fit (chart_of numbers.now)) (from (transition_count numbers.now) 0) }
{
    let n = tables::transition_count(numbers);
    (0..n).all(|i| targets_fit(numbers, sets, Transition(i as u16)))
}

// The rule, where the ancestors of each row are there.
pub fn lists_keep(numbers: &[u64], sets: &[u64]) -> bool
    requires { Climbed numbers.now sets.now }
    ensures { result ≡ rule4 (chart_of numbers.now) }
{
    if !lists_fit(numbers, sets) {
        return false;
    }
    all_targets_fit(numbers, sets)
}

// Not inlined: its sets would lie on the stack while the names are judged, which want nearly as much of their own (docs/c.md, the stack of each call).
#[inline(never)]
pub fn keeps_lists(numbers: &[u64]) -> bool
    requires { TreeIn numbers.now × (rule3 (chart_of numbers.now) ≡ true) }
    ensures { result ≡ rule4 (chart_of numbers.now) }
{
    let mut sets = [0u64; 1024];
    rules3::put_ancestors(numbers, &mut sets);
    lists_keep(numbers, &sets)
}
