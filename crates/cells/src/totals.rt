// Whether the counts of all bins keep within rule 1, before anything is laid.
ghost use Rattle.std.specs.Prelude.{◌≡◌, ◌≤◌, length, sum};
ghost use Rattle.bins.specs.Bins.{counts_in};
ghost use Rattle.cells.specs.Totals.{TotalsRoom, is_within};

use tables::limits::{ROOM_FOR_ACTIONS, ROOM_FOR_DESCRIPTORS, ROOM_FOR_REFERENCES};

// Four for each action.
const ROOM_FOR_ACTION_CELLS: u64 = ROOM_FOR_ACTIONS * 4;

// How many cells some bins have.
fn sum(counts: &[u32]) -> u64
    requires { length counts.now ≤ 65536 }
    ensures { result ≡ sum counts.now }
{
    counts.iter().map(|x| u64::from(*x)).sum()
}

// References, descriptors and actions are at most as many as rule 1 allows.
pub fn is_within(next: &[u32], n: usize, t: usize) -> bool
    requires { TotalsRoom next.now n t }
    ensures { result ≡ is_within (counts_in next.now) n t }
{
    let targets = n * 2 + t;
    let blocks = targets + t;
    let references = sum(&next[..targets]);
    if ROOM_FOR_REFERENCES < references {
        return false;
    }
    let descriptors = sum(&next[targets..blocks]);
    if ROOM_FOR_DESCRIPTORS < descriptors {
        return false;
    }
    let cells = sum(&next[blocks..blocks + n * 3 + t]);
    cells <= ROOM_FOR_ACTION_CELLS
}
