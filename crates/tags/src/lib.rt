// The tags of a text one by one (R-1): a walk to the end of the next tag, with the places of its attributes' values.
#![tactic(auto)]

ghost use Rattle.std.specs.Prelude.{◌≡◌, ◌<◌, length};
ghost use Rattle.marks.specs.Marks.{value_from, value_to};
ghost use Rattle.marks.specs.Walks.{Standing};
ghost use Rattle.tags.specs.Cells.{is_word, stated_in, from_in, to_in, Cleared, with_value, with_mark, is_value_mark, ValueIn, WordIn, EndIn};
ghost use Rattle.tags.specs.Tags.{NextTag};

use marks::{Mark, Walk, next_mark};

// The values of a tag are noted in 22 cells, two for each attribute by its word, xmlns 24 to sendid 34: where the value begins, and one more than its
// length. Both are 0 of an attribute that the tag does not state.

// The word of an attribute, as a number.
// Kept: words of attributes are the numbers of the definition (Rattle.grammar.specs.Tables), here and where the walks hand them on.
fn is_word(word: u8) -> bool
    ensures { result ≡ is_word word }
{
    (24 <= word) & (word < 35)
}

// Does the tag state the attribute.
pub fn is_stated(cells: &[u16], word: usize) -> bool
    requires { WordIn cells.now word }
    ensures { result ≡ stated_in cells.now word }
{
    let i = (word - 24) * 2 + 1;
    cells[i] != 0
}

// Where its value begins.
pub fn value_from(cells: &[u16], word: usize) -> usize
    requires { WordIn cells.now word }
    ensures { result ≡ from_in cells.now word }
{
    let i = (word - 24) * 2;
    usize::from(cells[i])
}

// Where its quote stands; where it begins, if the attribute is absent.
pub fn value_to(cells: &[u16], word: usize) -> usize
    requires { EndIn cells.now word }
    ensures { result ≡ to_in cells.now word }
{
    let i = (word - 24) * 2;
    let long = usize::from(cells[i + 1]);
    usize::from(cells[i]) + long.saturating_sub(1)
}

// The first value of an attribute counts.
fn note_value(cells: &mut [u16], word: u8, from: usize, to: usize)
    requires { ValueIn cells.old from to }
    ensures { cells.new ≡ with_value cells.old word from to }
{
    if is_word(word) {
        let i = (usize::from(word) - 24) * 2;
        if cells[i + 1] == 0 {
            cells[i] = from as u16;
            cells[i + 1] = (to - from + 1) as u16;
        }
    }
}

fn is_value_mark(m: Mark) -> bool
    ensures { result ≡ is_value_mark m }
{
    matches!(m, Mark::Valued(_, _, _, _))
}

fn note_mark(cells: &mut [u16], m: Mark)
    requires { ValueIn cells.old (value_from m) (value_to m) }
    ensures { cells.new ≡ with_mark cells.old m }
{
    match m {
        Mark::Valued(_, word, from, to) => note_value(cells, word, from, to),
        _ => {}
    }
}

fn walk_to_tag(text: &[u8], levels: &mut [u8], cells: &mut [u16], walk: Walk) -> Walk
    requires { Cleared cells.old × Standing text.now levels.old walk }
    ensures { NextTag text.now levels.old levels.new cells.new walk result }
{
    let mut w = walk;
    loop {
        let next = next_mark(text, levels, w);
        let m = next.mark;
        if !is_value_mark(m) {
            return next;
        }
        note_mark(cells, m);
        w = next;
    }
}

// The end of the next tag, with its values in the cells; Nothing where there is none.
pub fn next_tag(text: &[u8], levels: &mut [u8], cells: &mut [u16], walk: Walk) -> Walk
    requires { (length cells.old ≡ 22) × Standing text.now levels.old walk }
    ensures { NextTag text.now levels.old levels.new cells.new walk result }
{
    cells.fill(0);
    walk_to_tag(text, levels, cells, walk)
}
