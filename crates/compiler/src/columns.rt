// The columns of a compiled chart, derived from the numbers: the sets of each row, and the anchors of each transition's targets.
ghost use Rattle.std.specs.Prelude.{◌≡◌, [], ◌*◌, ◌≤◌, length};
ghost use Rattle.definition.specs.Rows.{union, nothing_at};
ghost use Rattle.definition.specs.Tables.{row_count, transition_count, chart_of};
ghost use Rattle.definition.specs.Tree.{descendants, children, default_targets, anchors};
ghost use Rattle.definition.specs.Compiled.{columns};
ghost use Rattle.rowset.specs.Member.{rows_of};
ghost use Rattle.chart.specs.Writing.{column_over};
ghost use Rattle.compiler.specs.Compilable.{RowRoom, TransitionRoom, TargetRoom, PairRoom, ColumnsRoom, children_and_targets};
ghost use Rattle.compiler.specs.Targets.{WithChildren, TransitionKept};

use numbers::{Row, Transition};
use rowset::RowSet;
use tables::columns::{ANCHORS, CHILDREN, DESCENDANTS, SET_WIDTH};
use tables::put_set;

// Empty sets for the numbers below n.
fn clear(sets: &mut [u64], n: usize)
    requires { n * 4 ≤ length sets.old }
    ensures { sets.new ≡ column_over nothing_at n sets.old }
{
    for i in 0..n {
        put_set(sets, i * SET_WIDTH, RowSet::empty());
    }
}

// Each row that is no history joins its parent's children.
fn write_children(numbers: &[u64], sets: &mut [u64])
    requires { RowRoom numbers.now sets.old }
    ensures { sets.new ≡ column_over (children (chart_of numbers.now)) (row_count numbers.now) sets.old }
{
    let rows = tables::row_count(numbers) as usize;
    clear(sets, rows);
    for i in 1..rows {
        let r = Row(i as u8);
        if tables::is_history(tables::kind_of(numbers, r)) {
            continue;
        }
        let at = tables::parent_row(numbers, r).0 as usize * SET_WIDTH;
        let siblings = chart::set_at(sets, at);
        put_set(sets, at, siblings.with(r));
    }
}

// From the last row to the first: a row's descendants are all there when it adds itself and them to its parent's.
fn write_descendants(numbers: &[u64], sets: &mut [u64])
    requires { RowRoom numbers.now sets.old }
    ensures { sets.new ≡ column_over (descendants (chart_of numbers.now)) (row_count numbers.now) sets.old }
{
    let rows = tables::row_count(numbers) as usize;
    clear(sets, rows);
    for i in (1..rows).rev() {
        let r = Row(i as u8);
        if !tables::is_history(tables::kind_of(numbers, r)) {
            let own = chart::set_at(sets, i * SET_WIDTH).with(r);
            let at = tables::parent_row(numbers, r).0 as usize * SET_WIDTH;
            let others = chart::set_at(sets, at);
            put_set(sets, at, others.union(own));
        }
    }
}

pub fn default_targets(numbers: &[u64], r: Row, kids: RowSet) -> RowSet
    requires { WithChildren numbers.now r.0 kids }
    ensures { rows_of result ≡ union [] (default_targets (chart_of numbers.now) r.0) }
{
    if !chart::has_initial(numbers, r, kids) {
        return RowSet::empty();
    }
    let list = tables::list_of(numbers, r);
    if list.len() == 0 {
        let Some(child) = kids.first() else {
            return RowSet::empty();
        };
        return RowSet::single(child);
    }
    tables::with_rows(numbers, RowSet::empty(), list)
}

// Behind the children of each row, which they are made of.
fn write_default_targets(numbers: &[u64], sets: &mut [u64])
    requires { TargetRoom numbers.now sets.old }
    ensures { sets.new ≡ children_and_targets (chart_of numbers.now) sets.old }
{
    let rows = tables::row_count(numbers) as usize;
    for i in 0..rows {
        let kids = chart::set_at(sets, i * SET_WIDTH);
        put_set(
            sets,
            (rows + i) * SET_WIDTH,
            default_targets(numbers, Row(i as u8), kids),
        );
    }
}

pub fn anchors(numbers: &[u64], t: Transition) -> RowSet
    requires { TransitionKept numbers.now t.0 }
    ensures { rows_of result ≡ anchors (chart_of numbers.now) t.0 }
{
    let targets = tables::targets_of(numbers, t);
    let mut set = RowSet::empty();
    for k in 0..targets.len() {
        let a = rules3::anchor_of(numbers, tables::row_at(numbers, targets, k));
        set = set.with(a);
    }
    set
}

fn write_anchors(numbers: &[u64], sets: &mut [u64])
    requires { TransitionRoom numbers.now sets.old }
    ensures { sets.new ≡ column_over (anchors (chart_of numbers.now)) (transition_count numbers.now) sets.old }
{
    let transitions = tables::transition_count(numbers) as usize;
    for t in 0..transitions {
        put_set(sets, t * SET_WIDTH, anchors(numbers, Transition(t as u16)));
    }
}

// Both columns: the default targets are made of the children.
fn write_children_and_targets(numbers: &[u64], sets: &mut [u64])
    requires { PairRoom numbers.now sets.old }
    ensures { sets.new ≡ children_and_targets (chart_of numbers.now) sets.old }
{
    write_children(numbers, sets);
    write_default_targets(numbers, sets);
}

// The five columns.
pub fn write_columns(numbers: &[u64], sets: &mut [u64])
    requires { ColumnsRoom numbers.now sets.old }
    ensures { sets.new ≡ columns (chart_of numbers.now) }
{
    let rows = tables::row_count(numbers) as usize;
    rules3::write_ancestors(numbers, sets);
    let below = rows * DESCENDANTS;
    write_descendants(numbers, &mut sets[below..]);
    let kids = rows * CHILDREN;
    write_children_and_targets(numbers, &mut sets[kids..]);
    let last = rows * ANCHORS;
    write_anchors(numbers, &mut sets[last..]);
}
