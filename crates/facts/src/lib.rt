// What a tag says (R-1): a row, a list of a row, a transition, an action of a block, or nothing, by its element and the spot that it stands in.
#![tactic(auto)]

ghost use Rattle.std.specs.Prelude.{◌≡◌};
ghost use Rattle.facts.specs.Facts.{part_of, SaidBy, block_only, ends};

use turns::SpotCells;

// A row under the row of a number; a list of a row; a transition of a row; an action of a block, which 1 is the entry, 2 the exit block of a row, 3 that of its
// list, 4 that of a transition, 0 none.
#[derive(Clone, Copy)]
pub enum Said {
    Nothing,
    Row(usize),
    List(usize),
    Transition(usize),
    Action(usize, usize),
}

// Which block of its row or transition a spot is in.
pub fn part_of(what: usize) -> usize
    ensures { result ≡ part_of what }
{
    what.saturating_sub(2)
}

fn is_block(element: u8) -> bool
    ensures { result ≡ block_only element }
{
    matches!(element, 5 | 7 | 8)
}

// What a start tag says; plain is one without event and cond.
pub fn said_of(s: SpotCells, element: u8, plain: bool) -> Said
    ensures { SaidBy s element plain result }
{
    let what = s.what;
    let number = s.number;
    if element <= 4 {
        return Said::Row(number);
    }
    let block = is_block(element);
    if block {
        return Said::Nothing;
    }
    let entering = element == 11;
    let moving = (element == 6) | entering;
    if !moving {
        let part = part_of(what);
        return Said::Action(part, number);
    }
    let wants = what == 1;
    if entering | (wants & plain) {
        return Said::List(number);
    }
    Said::Transition(number)
}

// Does the tag end an if: 1 for <x/>, 2 for </x>. The end is an action of the block that the tag stands in.
pub fn ends_if(shape: u8, element: u8) -> bool
    ensures { result ≡ ends shape element }
{
    !(shape == 0) & (element == 12)
}
