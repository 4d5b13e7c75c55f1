// The cells of a list of calls: seven a call, of which the first says what it is, and the last three take what it gives.
ghost use Rattle.std.specs.Prelude.{◌≡◌, [], ◌∷◌, ◌*◌, ◌/◌, ◌<◌, length};
ghost use Rattle.calls.specs.Calls.{is_kind, is_call};
ghost use Rattle.calls.specs.Reading.{cells_at};

pub const START: u64 = 0;

pub const POST: u64 = 1;

pub const RUN: u64 = 2;

const CLOCK: u64 = 3;

const MOST_ROUNDS: u64 = 4294967295;

pub const CALL_WIDTH: usize = 7;

// Cells of a call that say what it is.
pub const ARGUMENTS: usize = 4;

pub const RESULT_WIDTH: usize = 3;

fn is_kind(kind: u64, a: u64, b: u64, size: usize) -> bool
    ensures { result ≡ is_kind kind a b size }
{
    if kind == START {
        return true;
    }
    if kind == POST {
        return (a <= b) & (b <= size as u64);
    }
    if kind == RUN {
        return a <= MOST_ROUNDS;
    }
    kind == CLOCK
}

// What a call of a list is: its kind, the length of its window of the trace, and for a post where its name begins and ends in the text, for
// a run its rounds in a, for a clock call its ticks in a.
#[derive(Clone, Copy)]
pub struct Cells {
    pub kind: u64,
    pub room: u64,
    pub a: u64,
    pub b: u64,
}

pub fn cells_at(calls: &[u64], i: usize) -> Cells
    requires { i < length calls.now / 7 }
    ensures { result ≡ cells_at calls.now (i * 7) }
{
    let at = i * CALL_WIDTH;
    Cells {
        kind: calls[at],
        room: calls[at + 1],
        a: calls[at + 2],
        b: calls[at + 3],
    }
}

// There is room for so many trace entries.
pub fn is_call(cells: Cells, size: usize, left: usize) -> bool
    ensures { result ≡ is_call cells.kind cells.room cells.a cells.b size left }
{
    if (left as u64) < cells.room {
        return false;
    }
    is_kind(cells.kind, cells.a, cells.b, size)
}

// What it gives: the number of its answer or status, the rounds done and the count of its entries.
#[derive(Clone, Copy)]
pub struct Called {
    pub number: u32,
    pub rounds: u32,
    pub count: usize,
}

pub fn put_result(res: &mut [u64], called: Called)
    requires { length res.old ≡ 3 }
    ensures { res.new ≡ called.number ∷ called.rounds ∷ called.count ∷ [] }
{
    let cells = [
        called.number as u64,
        called.rounds as u64,
        called.count as u64,
    ];
    res.copy_from_slice(&cells);
}

pub fn gives(number: u32, rounds: u32, count: usize) -> Called
    ensures { result ≡ record { number = number; rounds = rounds; count = count } }
{
    Called {
        number: number,
        rounds: rounds,
        count: count,
    }
}
