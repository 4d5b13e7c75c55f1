// Blocks, and the elements that hold nothing but a block.
ghost use Rattle.std.specs.Prelude.{◌≡◌, [], ◌∷◌, ◌++◌};
ghost use Rattle.reading.specs.Layout.{content, acts_at};
ghost use Rattle.reading.specs.Print.{condition, block_text, block_element};
ghost use Rattle.spell.specs.Laid.{Laid};
ghost use Rattle.spell.specs.Actions.{ActionReady};
ghost use Rattle.spell.specs.Blocks.{BlockReady, HollowReady, is_hollow, closing};

use crate::actions::lay_action;
use crate::parts::{lay_byte, lay_part};
use crate::values::lay_condition;
use tables::columns;

// Whether action a is an if with nothing inside: its end comes next, before action `end`.
fn is_hollow(numbers: &[u64], a: u64, end: u64) -> bool
    requires { HollowReady numbers.now a end }
    ensures { result ≡ is_hollow numbers.now a end }
{
    if tables::action_cell(numbers, a, columns::ACTION_KIND) != columns::IF {
        return false;
    }
    let b = a + 1;
    if end <= b {
        return false;
    }
    tables::action_cell(numbers, b, columns::ACTION_KIND) == columns::END
}

// `count` actions from `start` on.
fn lay_block(
    numbers: &[u64],
    names: &[u8],
    start: u64,
    count: u64,
    out: &mut [u8],
    at: usize,
) -> usize
    requires { BlockReady numbers.now names.now start count }
    ensures { Laid (block_text (content numbers.now names.now).rows (acts_at numbers.now names.now start count)) out.old at out.new result }
{
    let end = start + count;
    let mut next = at;
    let mut a = start;
    // Kept: no `for` is plainer, since an if and its end go in one turn: a step is one action or two.
    while a < end {
        let hollow = is_hollow(numbers, a, end);
        if hollow {
            let i = tables::action_cell(numbers, a, columns::ARGUMENT);
            next = lay_condition(numbers, names, b"<if", i, b"/>", out, next);
            a += 2;
            continue;
        }
        next = lay_action(numbers, names, a, out, next);
        a += 1;
    }
    next
}

// What follows the attributes of an element of this name that holds a block.
pub fn lay_inside(
    numbers: &[u64],
    names: &[u8],
    name: &[u8],
    start: u64,
    count: u64,
    out: &mut [u8],
    at: usize,
) -> usize
    requires { BlockReady numbers.now names.now start count }
    ensures { Laid (closing name.now (block_text (content numbers.now names.now).rows (acts_at numbers.now names.now start count))) out.old at out.new result }
{
    if count == 0 {
        return lay_part(b"/>", out, at);
    }
    let opened = lay_byte(b'>', out, at);
    let filled = lay_block(numbers, names, start, count, out, opened);
    let begun = lay_part(b"</", out, filled);
    let named = lay_part(name, out, begun);
    lay_byte(b'>', out, named)
}

// An element of this name, if there is something in its block.
pub fn lay_element(
    numbers: &[u64],
    names: &[u8],
    name: &[u8],
    start: u64,
    count: u64,
    out: &mut [u8],
    at: usize,
) -> usize
    requires { BlockReady numbers.now names.now start count }
    ensures { Laid (block_element (content numbers.now names.now).rows name.now (acts_at numbers.now names.now start count)) out.old at out.new result }
{
    if count == 0 {
        return at;
    }
    let begun = lay_byte(b'<', out, at);
    let named = lay_part(name, out, begun);
    lay_inside(numbers, names, name, start, count, out, named)
}
