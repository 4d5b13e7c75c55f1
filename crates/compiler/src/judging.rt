// The columns of a compiled chart, judged where they lie: the set of a row against those of its parent or its children, which are judged too.
ghost use Rattle.std.specs.Prelude.{◌≡◌, ◌&&◌, [], ◌<◌};
ghost use Rattle.definition.specs.Rows.{union, same, all, from, fold};
ghost use Rattle.definition.specs.Tables.{row_count, transition_count, chart_of};
ghost use Rattle.definition.specs.Tree.{default_targets};
ghost use Rattle.definition.specs.Compiled.{columns};
ghost use Rattle.rowset.specs.Member.{rows_of};
ghost use Rattle.compiler.specs.Compilable.{Compilable, RowRoom, TransitionRoom, ColumnsRoom};
ghost use Rattle.compiler.specs.Judged.{is_above, is_joined, is_child_row, with_below, is_down, is_aimed, is_anchored, TreeRoom, AboveKnown, KidsKnown};
ghost use Rattle.compiler.specs.Targets.{WithChildren};

use crate::columns::{anchors, default_targets};
use numbers::{Row, Transition};
use rowset::RowSet;
use tables::columns::{ANCHORS, CHILDREN, DEFAULT_TARGETS, DESCENDANTS, SET_WIDTH};

// A row's ancestors are its parent's and the parent; the root has none.
fn above_holds(numbers: &[u64], sets: &[u64], i: usize) -> bool
    requires { TreeRoom numbers.now sets.now × (i < row_count numbers.now) }
    ensures { result ≡ is_above (chart_of numbers.now) sets.now i }
{
    let own = chart::set_at(sets, i * SET_WIDTH);
    if i == 0 {
        return own.is_empty();
    }
    let p = tables::parent_row(numbers, Row(i as u8));
    let over = chart::set_at(sets, p.0 as usize * SET_WIDTH);
    own.same(over.with(p))
}

pub fn ancestors_hold(numbers: &[u64], sets: &[u64]) -> bool
    requires { TreeRoom numbers.now sets.now }
    ensures { result ≡ all (is_above (chart_of numbers.now) sets.now) (from (row_count numbers.now) 0) }
{
    let rows = tables::row_count(numbers) as usize;
    (0..rows).all(|i| above_holds(numbers, sets, i))
}

// A row that is no history is among its parent's children.
fn is_joined(numbers: &[u64], kids: &[u64], i: usize) -> bool
    requires { RowRoom numbers.now kids.now × (i < row_count numbers.now) }
    ensures { result ≡ is_joined (chart_of numbers.now) kids.now i }
{
    if i == 0 {
        return true;
    }
    let r = Row(i as u8);
    if tables::is_history(tables::kind_of(numbers, r)) {
        return true;
    }
    let p = tables::parent_row(numbers, r);
    chart::set_at(kids, p.0 as usize * SET_WIDTH).has(r)
}

fn all_joined(numbers: &[u64], kids: &[u64]) -> bool
    requires { RowRoom numbers.now kids.now }
    ensures { result ≡ all (is_joined (chart_of numbers.now) kids.now) (from (row_count numbers.now) 0) }
{
    let rows = tables::row_count(numbers) as usize;
    (0..rows).all(|i| is_joined(numbers, kids, i))
}

// Whether x is a row of the chart, and a child of row p.
fn is_child_row(numbers: &[u64], p: Row, x: Row) -> bool
    requires { Compilable numbers.now }
    ensures { result ≡ is_child_row (chart_of numbers.now) p.0 x.0 }
{
    if tables::row_count(numbers) <= x.0 as u64 {
        return false;
    }
    if tables::is_history(tables::kind_of(numbers, x)) {
        return false;
    }
    let q = tables::parent_of(numbers, x);
    (q < x.0 as u64) & (p.0 as u64 == q)
}

// Whether every row of the set is a child of row p, and these and all that they have below them are its own descendants: one walk judges and gathers.
fn are_own(numbers: &[u64], below: &[u64], p: Row, set: RowSet, own: RowSet) -> bool
    requires { RowRoom numbers.now below.now }
    ensures { result ≡ (all (is_child_row (chart_of numbers.now) p.0) (rows_of set) && same (rows_of own) (fold (with_below below.now) [] (rows_of set))) }
{
    let mut all = RowSet::empty();
    for x in set.iter() {
        if !is_child_row(numbers, p, x) {
            return false;
        }
        let more = chart::set_at(below, x.0 as usize * SET_WIDTH).with(x);
        all = all.union(more);
    }
    own.same(all)
}

// A row's descendants are its children and theirs. Most rows have none.
fn down_holds(numbers: &[u64], below: &[u64], kids: &[u64], i: usize) -> bool
    requires { RowRoom numbers.now below.now × RowRoom numbers.now kids.now × (i < row_count numbers.now) }
    ensures { result ≡ is_down (chart_of numbers.now) below.now kids.now i }
{
    let own = chart::set_at(below, i * SET_WIDTH);
    let set = chart::set_at(kids, i * SET_WIDTH);
    if set.is_empty() {
        return own.is_empty();
    }
    are_own(numbers, below, Row(i as u8), set, own)
}

fn all_down(numbers: &[u64], below: &[u64], kids: &[u64]) -> bool
    requires { RowRoom numbers.now below.now × RowRoom numbers.now kids.now }
    ensures { result ≡ all (is_down (chart_of numbers.now) below.now kids.now) (from (row_count numbers.now) 0) }
{
    let rows = tables::row_count(numbers) as usize;
    (0..rows).all(|i| down_holds(numbers, below, kids, i))
}

// Most rows have no default targets: for these no set is made.
fn aim_holds(numbers: &[u64], own: RowSet, r: Row, kids: RowSet) -> bool
    requires { WithChildren numbers.now r.0 kids }
    ensures { result ≡ same (rows_of own) (union [] (default_targets (chart_of numbers.now) r.0)) }
{
    if !chart::has_initial(numbers, r, kids) {
        return own.is_empty();
    }
    own.same(default_targets(numbers, r, kids))
}

// The default targets of a row need no other set than its children.
fn is_aimed(numbers: &[u64], kids: &[u64], targets: &[u64], i: usize) -> bool
    requires { KidsKnown numbers.now kids.now × RowRoom numbers.now targets.now × (i < row_count numbers.now) }
    ensures { result ≡ is_aimed (chart_of numbers.now) targets.now i }
{
    let set = chart::set_at(kids, i * SET_WIDTH);
    let own = chart::set_at(targets, i * SET_WIDTH);
    aim_holds(numbers, own, Row(i as u8), set)
}

fn all_aimed(numbers: &[u64], kids: &[u64], targets: &[u64]) -> bool
    requires { KidsKnown numbers.now kids.now × RowRoom numbers.now targets.now }
    ensures { result ≡ all (is_aimed (chart_of numbers.now) targets.now) (from (row_count numbers.now) 0) }
{
    let rows = tables::row_count(numbers) as usize;
    (0..rows).all(|i| is_aimed(numbers, kids, targets, i))
}

fn is_anchored(numbers: &[u64], sets: &[u64], t: usize) -> bool
    requires { TransitionRoom numbers.now sets.now × (t < transition_count numbers.now) }
    ensures { result ≡ is_anchored (chart_of numbers.now) sets.now t }
{
    let own = chart::set_at(sets, t * SET_WIDTH);
    own.same(anchors(numbers, Transition(t as u16)))
}

fn all_anchored(numbers: &[u64], sets: &[u64]) -> bool
    requires { TransitionRoom numbers.now sets.now }
    ensures { result ≡ all (is_anchored (chart_of numbers.now) sets.now) (from (transition_count numbers.now) 0) }
{
    let transitions = tables::transition_count(numbers) as usize;
    (0..transitions).all(|t| is_anchored(numbers, sets, t))
}

// Whether the sets are those that the numbers give, the ancestors being judged. None is derived apart: each is compared where it lies.
pub fn has_columns(numbers: &[u64], sets: &[u64]) -> bool
    requires { ColumnsRoom numbers.now sets.now × AboveKnown numbers.now sets.now }
    ensures { result ≡ same sets.now (columns (chart_of numbers.now)) }
{
    let rows = tables::row_count(numbers) as usize;
    let below = rows * DESCENDANTS;
    let kids = rows * CHILDREN;
    let targets = rows * DEFAULT_TARGETS;
    let last = rows * ANCHORS;
    if !all_joined(numbers, &sets[kids..]) {
        return false;
    }
    if !all_down(numbers, &sets[below..], &sets[kids..]) {
        return false;
    }
    if !all_aimed(numbers, &sets[kids..], &sets[targets..]) {
        return false;
    }
    all_anchored(numbers, &sets[last..])
}
