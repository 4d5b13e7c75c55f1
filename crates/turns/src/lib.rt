// What stands inside a tag and behind it (R-1, 1.15): the walk from tag to tag with the spots that they stand in as a stack.
#![tactic(auto)]

ghost use Rattle.std.specs.Prelude.{◌≡◌, ◌*◌, ◌≤◌, ◌<◌, length};
ghost use Rattle.turns.specs.Spots.{TopIs, StoreRoom, stored, TurnRoom, TransitionTurn, block_part, TurnIs};
ghost use Rattle.turns.specs.Turns.{EnterRoom, Entered, TagRoom, TagTurned};
ghost use Rattle.turns.specs.Next.{TurnAt, stayed, NextTurn};

use marks::{Mark, Walk, either};
use tags::{is_stated, next_tag};

// Where a tag stands, as two numbers: 0 under a row; 1 under a history or an initial element that still wants its default transition; 2 and more in a block,
// which 3 is the entry, 4 the exit block of a row, 5 that of its list, 6 that of a transition. The number is the row's or the transition's.
// Kept: the spots stand so in the lent place of numbers (StoreRoom), and elements are the numbers of the definition (Rattle.grammar.specs.Tables).
#[derive(Clone, Copy)]
pub struct SpotCells {
    pub what: usize,
    pub number: usize,
}

// What stands inside the tag, what around it from then on, and how many rows and transitions there are then.
#[derive(Clone, Copy)]
pub struct TurnCells {
    pub inside: SpotCells,
    pub around: SpotCells,
    pub rows: usize,
    pub transitions: usize,
}

// The innermost of the spots, of which there are depth; outside all of them, under no row.
pub fn top_spot(spots: &[u16], depth: usize) -> SpotCells
    requires { (depth * 2 ≤ length spots.now) × (length spots.now ≤ 16388) }
    ensures { TopIs spots.now depth result }
{
    if depth == 0 {
        return SpotCells {
            what: 0,
            number: 65535,
        };
    }
    let i = (depth - 1) * 2;
    SpotCells {
        what: usize::from(spots[i]),
        number: usize::from(spots[i + 1]),
    }
}

fn store_spot(spots: &mut [u16], at: usize, s: SpotCells)
    requires { StoreRoom spots.old at s }
    ensures { spots.new ≡ stored spots.old at s }
{
    spots[at * 2] = s.what as u16;
    spots[at * 2 + 1] = s.number as u16;
}

// A start tag of a transition: the default one of a history or an initial element, or one of the row's own.
fn transition_turn(
    s: SpotCells,
    rows: usize,
    transitions: usize,
    entering: bool,
    plain: bool,
) -> TurnCells
    requires { TurnRoom s rows transitions }
    ensures { TransitionTurn s rows transitions entering plain result }
{
    let what = s.what;
    let number = s.number;
    let wants = what == 1;
    let default = entering | (wants & plain);
    if !default {
        return TurnCells {
            inside: SpotCells {
                what: 6,
                number: transitions,
            },
            around: s,
            rows,
            transitions: transitions + 1,
        };
    }
    let settled = either(wants, 0, what);
    TurnCells {
        inside: SpotCells { what: 5, number },
        around: SpotCells {
            what: settled,
            number,
        },
        rows,
        transitions,
    }
}

// What stands inside the start tag of an element that is no row and no transition: 0 for what stands around it.
fn block_part(element: u8) -> usize
    ensures { result ≡ block_part element }
{
    match element {
        5 => 1,
        7 => 3,
        8 => 4,
        _ => 0,
    }
}

// A start tag of an element in a spot, with so many rows and transitions before it; plain is one without event and cond.
fn turn_of(s: SpotCells, rows: usize, transitions: usize, element: u8, plain: bool) -> TurnCells
    requires { TurnRoom s rows transitions }
    ensures { TurnIs s rows transitions element plain result }
{
    if element <= 4 {
        let history = element == 4;
        let wants = either(history, 1, 0);
        return TurnCells {
            inside: SpotCells {
                what: wants,
                number: rows,
            },
            around: s,
            rows: rows + 1,
            transitions,
        };
    }
    let entering = element == 11;
    if (element == 6) | entering {
        return transition_turn(s, rows, transitions, entering, plain);
    }
    let part = block_part(element);
    let own = s.what;
    let what = either(part == 0, own, part);
    let number = s.number;
    TurnCells {
        inside: SpotCells { what, number },
        around: s,
        rows,
        transitions,
    }
}

// The walk from tag to tag: where it stands in the text, how many spots, rows and transitions there are, and the spot that the last tag stood in.
#[derive(Clone, Copy)]
pub struct Turning {
    pub walk: Walk,
    pub depth: usize,
    pub rows: usize,
    pub transitions: usize,
    pub spot: SpotCells,
}

// The spots behind a start tag, of which shape 0 has something inside: the innermost is what stands inside it.
fn enter(spots: &mut [u16], depth: usize, shape: u8, t: TurnCells) -> usize
    requires { EnterRoom spots.old depth t }
    ensures { Entered spots.old spots.new depth shape t result }
{
    let base = depth.saturating_sub(1);
    store_spot(spots, base, t.around);
    if shape == 0 {
        store_spot(spots, base + 1, t.inside);
        return base + 2;
    }
    base + 1
}

// The tag that has ended at next, of a shape (0 for <x>, 1 for <x/>, 2 for </x>) and an element, with its values in the cells.
fn tag_turn(
    cells: &[u16],
    spots: &mut [u16],
    t: Turning,
    next: Walk,
    shape: u8,
    element: u8,
) -> Turning
    requires { TagRoom cells.now spots.old t }
    ensures { TagTurned cells.now spots.old spots.new t next shape element result }
{
    let depth = t.depth;
    let rows = t.rows;
    let transitions = t.transitions;
    let spot = top_spot(spots, depth);
    if 2 <= shape {
        return Turning {
            walk: next,
            depth: depth.saturating_sub(1),
            rows,
            transitions,
            spot,
        };
    }
    let plain = !is_stated(cells, 29) & !is_stated(cells, 30);
    let turn = turn_of(spot, rows, transitions, element, plain);
    let deeper = enter(spots, depth, shape, turn);
    Turning {
        walk: next,
        depth: deeper,
        rows: turn.rows,
        transitions: turn.transitions,
        spot,
    }
}

fn stay(t: Turning, next: Walk) -> Turning
    ensures { result ≡ stayed t next }
{
    let spot = t.spot;
    Turning {
        walk: next,
        depth: t.depth,
        rows: t.rows,
        transitions: t.transitions,
        spot,
    }
}

// The next tag, with its values in the cells, and the spots behind it; a walk without a mark where there is none.
pub fn next_turn(
    text: &[u8],
    levels: &mut [u8],
    cells: &mut [u16],
    spots: &mut [u16],
    t: Turning,
) -> Turning
    requires { TurnAt text.now levels.old cells.old spots.old t }
    ensures { NextTurn text.now levels.old levels.new cells.new spots.old spots.new t result }
{
    let walk = t.walk;
    let next = next_tag(text, levels, cells, walk);
    let m = next.mark;
    match m {
        Mark::Tagged(_, shape, element) => tag_turn(cells, spots, t, next, shape, element),
        _ => stay(t, next),
    }
}
