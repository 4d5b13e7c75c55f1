// Rule 3: every row under its parent, in document order, and a child for each row that needs one; and what rule 4 and the compiler read of
// such a tree, the ancestors and the anchor of each row.
#![tactic(auto)]

ghost use Rattle.std.specs.Prelude.{◌≡◌, ◌∷◌, ◌+◌, ◌*◌, ◌≤◌, length};
ghost use Rattle.definition.specs.Rows.{all, from, mem};
ghost use Rattle.definition.specs.Tables.{row_count, chart_of};
ghost use Rattle.definition.specs.Tree.{ancestors, is_child, anchor};
ghost use Rattle.definition.specs.Rules.{parent_fits, is_history_of, rule3};
ghost use Rattle.tables.specs.Ranges.{InTables, RowIn};
ghost use Rattle.tables.specs.Parts.{RowOf};
ghost use Rattle.chart.specs.Writing.{column_over};
ghost use Rattle.rules3.specs.Parents.{TreeIn, Marks, is_filled};
ghost use Rattle.rules3.specs.Ancestry.{set_of, Ancestry};

use numbers::Row;
use rowset::RowSet;
use tables::columns::SET_WIDTH;
use tables::limits;

// ---- parents

// Whether p is row r or an ancestor of it. A climb that finds the parent of the next row ends there, and no later climb passes the rows
// below: all of them together are as long as the rows are many.
fn is_on_path(numbers: &[u64], r: Row, p: u64) -> bool
    requires { RowIn numbers.now r.0 }
    ensures { result ≡ mem p (r.0 ∷ ancestors (chart_of numbers.now) r.0) }
{
    let mut a = r.0;
    loop {
        if a as u64 == p {
            return true;
        }
        let up = tables::parent_of(numbers, Row(a));
        if a as u64 <= up {
            return false;
        }
        a = up as u8;
    }
}

fn parent_fits(numbers: &[u64], r: Row) -> bool
    requires { RowIn numbers.now r.0 }
    ensures { result ≡ parent_fits (chart_of numbers.now) r.0 }
{
    let kind = tables::kind_of(numbers, r);
    let p = tables::parent_of(numbers, r);
    let i = r.0;
    if i == 0 {
        return tables::is_root(kind) & (p == limits::NO_NUMBER);
    }
    if tables::is_root(kind) {
        return false;
    }
    if !is_on_path(numbers, Row(i - 1), p) {
        return false;
    }
    tables::may_stand(tables::kind_of(numbers, Row(p as u8)), kind)
}

fn parents_fit(numbers: &[u64]) -> bool
    requires { InTables numbers.now }
    ensures { result ≡ all (parent_fits (chart_of numbers.now)) (from (row_count numbers.now) 0) }
{
    let n = tables::row_count(numbers);
    for i in 0..n {
        if !parent_fits(numbers, Row(i as u8)) {
            return false;
        }
    }
    true
}

// The rows that have a child which is no history, and those that have a history.
#[derive(Clone, Copy)]
struct Parents {
    children: RowSet,
    histories: RowSet,
}

fn gather_parents(numbers: &[u64]) -> Parents
    requires { TreeIn numbers.now }
    ensures { Marks (is_child (chart_of numbers.now)) (row_count numbers.now) result.children × Marks (is_history_of (chart_of numbers.now)) (row_count numbers.now) result.histories }
{
    let n = tables::row_count(numbers);
    let mut children = RowSet::empty();
    let mut histories = RowSet::empty();
    for i in 1..n {
        let r = Row(i as u8);
        let p = tables::parent_row(numbers, r);
        if tables::is_history(tables::kind_of(numbers, r)) {
            histories = histories.with(p);
        } else {
            children = children.with(p);
        }
    }
    Parents {
        children,
        histories,
    }
}

// The root, each parallel and each state with a history has a child that is no history.
fn is_filled(numbers: &[u64], children: RowSet, histories: RowSet, r: Row) -> bool
    requires { RowIn numbers.now r.0 × Marks (is_child (chart_of numbers.now)) (row_count numbers.now) children × Marks (is_history_of (chart_of numbers.now)) (row_count numbers.now) histories }
    ensures { result ≡ is_filled (chart_of numbers.now) r.0 }
{
    let kind = tables::kind_of(numbers, r);
    if tables::is_root(kind) | tables::is_parallel(kind) | histories.has(r) {
        return children.has(r);
    }
    true
}

fn are_filled(numbers: &[u64]) -> bool
    requires { TreeIn numbers.now }
    ensures { result ≡ all (is_filled (chart_of numbers.now)) (from (row_count numbers.now) 0) }
{
    let Parents {
        children,
        histories,
    } = gather_parents(numbers);
    let n = tables::row_count(numbers);
    for i in 0..n {
        if !is_filled(numbers, children, histories, Row(i as u8)) {
            return false;
        }
    }
    true
}

pub fn keeps_tree(numbers: &[u64]) -> bool
    requires { InTables numbers.now }
    ensures { result ≡ rule3 (chart_of numbers.now) }
{
    if !parents_fit(numbers) {
        return false;
    }
    are_filled(numbers)
}

// The anchor of a history is its parent, of another row itself.
pub fn anchor_of(numbers: &[u64], r: Row) -> Row
    requires { TreeIn numbers.now × RowIn numbers.now r.0 }
    ensures { RowOf numbers.now (anchor (chart_of numbers.now) r.0) result.0 }
{
    if tables::is_history(tables::kind_of(numbers, r)) {
        return tables::parent_row(numbers, r);
    }
    r
}

// ---- the ancestors of every row, as sets

pub fn set_of(sets: &[u64], r: Row) -> RowSet
    requires { r.0 * 4 + 4 ≤ length sets.now }
    ensures { result ≡ set_of sets.now r.0 }
{
    tables::set_at(sets, usize::from(r) * SET_WIDTH)
}

// A parent stands before its children: its ancestors are there when theirs are made.
pub fn write_ancestors(numbers: &[u64], sets: &mut [u64])
    requires { TreeIn numbers.now × (row_count numbers.now * 4 ≤ length sets.old) }
    ensures { sets.new ≡ column_over (ancestors (chart_of numbers.now)) (row_count numbers.now) sets.old }
{
    let n = tables::row_count(numbers) as usize;
    tables::put_set(sets, 0, RowSet::empty());
    for i in 1..n {
        let p = tables::parent_row(numbers, Row(i as u8));
        let above = set_of(sets, p);
        tables::put_set(sets, i * SET_WIDTH, above.with(p));
    }
}

// The same, as rule 4 reads them.
pub fn put_ancestors(numbers: &[u64], sets: &mut [u64])
    requires { TreeIn numbers.now × (row_count numbers.now * 4 ≤ length sets.old) }
    ensures { Ancestry numbers.now (row_count numbers.now) sets.new }
{
    write_ancestors(numbers, sets);
}
