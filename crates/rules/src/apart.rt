// Rule 4: rows that stand apart, as those of every list do.
ghost use Rattle.std.specs.Prelude.{◌≡◌};
ghost use Rattle.definition.specs.Tables.{chart_of};
ghost use Rattle.definition.specs.Rules.{are_apart};
ghost use Rattle.rowset.specs.Member.{rows_of};
ghost use Rattle.tables.specs.Ranges.{RowsIn};
ghost use Rattle.rules3.specs.Ancestry.{Climbed};
ghost use Rattle.rules.specs.Beside.{is_beside, UnderSet};
ghost use Rattle.rules.specs.Nearest.{highest};

use numbers::Row;
use rowset::RowSet;

// The last row of both sets, and row 0 where there is none.
fn highest_common(a: RowSet, b: RowSet) -> Row
    ensures { result.0 ≡ highest (rows_of a) (rows_of b) }
{
    match a.intersection(b).prev_below(256) {
        Some(r) => r,
        None => Row(0),
    }
}

// Whether the row a, under the rows over, stands apart from each of the anchors, which are under the rows above and stand apart themselves.
fn is_beside(numbers: &[u64], anchors: RowSet, above: RowSet, over: RowSet, a: Row) -> bool
    requires { UnderSet numbers.now a.0 over }
    ensures { result ≡ is_beside (chart_of numbers.now) (rows_of anchors) (rows_of above) (rows_of over) a.0 }
{
    if anchors.is_empty() {
        return true;
    }
    if anchors.has(a) {
        return false;
    }
    if above.has(a) {
        return false;
    }
    if anchors.meets(over) {
        return false;
    }
    let nearest = highest_common(over, above);
    tables::is_parallel(tables::kind_of(numbers, nearest))
}

// Each row is held against all before it at once, so that the time grows with the list alone; a list longer than the chart ends at a row
// that it has twice.
pub fn are_apart(numbers: &[u64], sets: &[u64], list: &[u64]) -> bool
    requires { Climbed numbers.now sets.now × RowsIn numbers.now list.now }
    ensures { result ≡ are_apart (chart_of numbers.now) list.now }
{
    let mut anchors = RowSet::empty();
    let mut above = RowSet::empty();
    for k in 0..list.len() {
        let a = rules3::anchor_of(numbers, tables::row_at(numbers, list, k));
        let over = rules3::set_of(sets, a);
        if !is_beside(numbers, anchors, above, over, a) {
            return false;
        }
        anchors = anchors.with(a);
        above = above.union(over);
    }
    true
}
