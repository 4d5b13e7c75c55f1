// Rule 4 on initial lists: each member stands under the owner, a history too.
ghost use Rattle.std.specs.Prelude.{◌≡◌};
ghost use Rattle.definition.specs.Rows.{all};
ghost use Rattle.definition.specs.Tables.{chart_of};
ghost use Rattle.definition.specs.Rules.{is_under};
ghost use Rattle.tables.specs.Ranges.{RowIn, RowsIn};
ghost use Rattle.rules3.specs.Ancestry.{Climbed};

use numbers::Row;

fn is_under(numbers: &[u64], sets: &[u64], a: Row, r: Row) -> bool
    requires { Climbed numbers.now sets.now × RowIn numbers.now r.0 }
    ensures { result ≡ is_under (chart_of numbers.now) a.0 r.0 }
{
    rules3::set_of(sets, r).has(a)
}

pub fn all_under(numbers: &[u64], sets: &[u64], a: Row, list: &[u64]) -> bool
    requires { Climbed numbers.now sets.now × RowsIn numbers.now list.now }
    ensures { result ≡ all (is_under (chart_of numbers.now) a.0) list.now }
{
    list.iter()
        .all(|&x| is_under(numbers, sets, a, Row(x as u8)))
}
