// A set of rows as four words, behind the tables of a compiled chart or in any other place.
ghost use Rattle.std.specs.Prelude.{◌≡◌, ◌+◌, ◌≤◌, length};
ghost use Rattle.rowset.specs.Member.{rows_of};
ghost use Rattle.tables.specs.Ranges.{SetIn};
ghost use Rattle.tables.specs.Parts.{row_set_at};
ghost use Rattle.tables.specs.Sets.{put_at};

use rowset::RowSet;

pub fn set_at(place: &[u64], at: usize) -> RowSet
    requires { SetIn place.now at }
    ensures { result ≡ row_set_at place.now at }
{
    RowSet {
        w0: place[at],
        w1: place[at + 1],
        w2: place[at + 2],
        w3: place[at + 3],
    }
}

// The set's four words from w on.
pub fn put_set(sets: &mut [u64], w: usize, s: RowSet)
    requires { w + 4 ≤ length sets.old }
    ensures { sets.new ≡ put_at sets.old w (rows_of s) }
{
    sets[w] = s.w0;
    sets[w + 1] = s.w1;
    sets[w + 2] = s.w2;
    sets[w + 3] = s.w3;
}
