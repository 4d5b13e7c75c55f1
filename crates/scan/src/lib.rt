// Bytes, words, attributes and levels of the grammar of texts (R-1): the readers of its tables. Each equals the definition's function of a like name.
#![tactic(auto)]

ghost use Rattle.std.specs.Prelude.{◌≡◌, ◌+◌, ◌*◌, ◌≤◌, ◌<◌, get_or};
ghost use Rattle.grammar.specs.Tables.{words, menus, attrs, kinds, needed, opened, owners, ends, bits, adds};
ghost use Rattle.grammar.specs.Grammar.{is_space, is_char, is_token, word_byte, agree, follows, pick, attribute, has, added, pick_attribute, is_complete, may_end, owner, after, opens, kind_of};

use crate::tables::{ADDS, ATTRS, BITS, ENDS, KINDS, MENUS, NEEDED, OPENED, OWNERS, WORDS};

mod tables;

// ---- bytes

// White space of XML.
pub fn is_space(b: u8) -> bool
    ensures { result ≡ is_space b }
{
    (b == b' ') | (b == b'\n') | (b == b'\t') | (b == b'\r')
}

// Plain ASCII that XML allows.
pub fn is_char(b: u8) -> bool
    ensures { result ≡ is_char b }
{
    ((b' ' <= b) & (b <= 127)) | (b == b'\n') | (b == b'\t') | (b == b'\r')
}

// A name byte but the dot.
pub fn is_token(b: u8) -> bool
    ensures { result ≡ is_token b }
{
    ((b'a' <= b) & (b <= b'z'))
        | ((b'A' <= b) & (b <= b'Z'))
        | ((b'0' <= b) & (b <= b'9'))
        | (b == b'-')
        | (b == b'_')
}

// Kept: words, elements, attributes and levels are numbers, with 48 and 4 for none, as the definition has them (Rattle.grammar.specs.Grammar.pick,
// pick_attribute).

// ---- tables

// Cell i of a table; `past` counts as standing behind its end.
fn cell(table: &[u8], i: usize, past: u8) -> u8
    ensures { result ≡ get_or table.now i past }
{
    match table.get(i) {
        Some(&here) => here,
        None => past,
    }
}

// Where cell j of row i stands, in a table with rows of n cells.
fn cell_at(n: usize, i: u8, j: usize) -> usize
    requires { (n ≤ 11) × (j < 65536) }
    ensures { result ≡ i * n + j }
{
    usize::from(i) * n + j
}

pub fn word_cell(i: usize) -> u8
    ensures { result ≡ get_or words i 0 }
{
    cell(&WORDS, i, 0)
}

pub fn menu_cell(i: usize) -> u8
    ensures { result ≡ get_or menus i 48 }
{
    cell(&MENUS, i, 48)
}

pub fn attr_cell(i: usize) -> u8
    ensures { result ≡ get_or attrs i 48 }
{
    cell(&ATTRS, i, 48)
}

pub fn kind_cell(i: usize) -> u8
    ensures { result ≡ get_or kinds i 0 }
{
    cell(&KINDS, i, 0)
}

pub fn need_cell(i: usize) -> u8
    ensures { result ≡ get_or needed i 4 }
{
    cell(&NEEDED, i, 4)
}

pub fn open_cell(i: usize) -> u8
    ensures { result ≡ get_or opened i 14 }
{
    cell(&OPENED, i, 14)
}

pub fn owner_cell(i: usize) -> u8
    ensures { result ≡ get_or owners i 48 }
{
    cell(&OWNERS, i, 48)
}

pub fn end_cell(i: usize) -> u8
    ensures { result ≡ get_or ends i 0 }
{
    cell(&ENDS, i, 0)
}

pub fn bit_cell(i: usize) -> u8
    ensures { result ≡ get_or bits i 1 }
{
    cell(&BITS, i, 1)
}

pub fn add_cell(i: usize) -> u8
    ensures { result ≡ get_or adds i 15 }
{
    cell(&ADDS, i, 15)
}

// ---- words

// Byte k of a word, 0 past its end.
pub fn word_byte(w: u8, k: u16) -> u8
    ensures { result ≡ word_byte w k }
{
    word_cell(cell_at(11, w, usize::from(k)))
}

// The first k bytes of both words are the same.
pub fn agrees(w: u8, v: u8, k: u16) -> bool
    ensures { result ≡ agree w v k }
{
    for j in 0..k {
        if word_byte(w, j) != word_byte(v, j) {
            return false;
        }
    }
    true
}

// The word v goes on with b after the first k bytes of w.
pub fn goes_on(w: u8, v: u8, k: u16, b: u8) -> bool
    ensures { result ≡ follows w v k b }
{
    word_byte(v, k) == b && agrees(w, v, k)
}

// The first word of a row of the menus that goes on so, or 48.
pub fn pick_word(row: u8, w: u8, k: u16, b: u8) -> u8
    ensures { result ≡ pick row w k b }
{
    for j in 0..8 {
        let v = menu_cell(cell_at(8, row, j));
        if goes_on(w, v, k, b) {
            return v;
        }
    }
    48
}

// The word of the attribute in place j of the row of element e.
pub fn attribute_of(e: u8, j: u8) -> u8
    ensures { result ≡ attribute e j }
{
    attr_cell(cell_at(4, e, usize::from(j)))
}

// The kind of its value.
pub fn kind_of(e: u8, j: u8) -> u8
    ensures { result ≡ kind_of e j }
{
    kind_cell(cell_at(4, e, usize::from(j)))
}

// Is attribute j in the set x.
pub fn has_it(x: u8, j: u8) -> bool
    ensures { result ≡ has x j }
{
    bit_cell(cell_at(4, x, usize::from(j))) == 1
}

// The set x with attribute j.
pub fn with_it(x: u8, j: u8) -> u8
    ensures { result ≡ added x j }
{
    add_cell(cell_at(4, x, usize::from(j)))
}

// The first attribute of e that is not in x yet and goes on so, or 4.
pub fn pick_attribute(e: u8, x: u8, w: u8, k: u16, b: u8) -> u8
    ensures { result ≡ pick_attribute 4 0 e x w k b }
{
    for j in 0..4 {
        let taken = has_it(x, j);
        let next = goes_on(w, attribute_of(e, j), k, b);
        if !taken & next {
            return j;
        }
    }
    4
}

// May the start tag end.
pub fn is_complete(e: u8, x: u8) -> bool
    ensures { result ≡ is_complete e x }
{
    let j = need_cell(usize::from(e));
    j == 4 || has_it(x, j)
}

// ---- levels

// May an end tag stand at the level.
pub fn may_end(t: u8) -> bool
    ensures { result ≡ may_end t }
{
    end_cell(usize::from(t)) == 1
}

// The element that a level is in.
pub fn owner_of(t: u8) -> u8
    ensures { result ≡ owner t }
{
    owner_cell(usize::from(t))
}

// The parent's level once the child e has begun.
pub fn level_after(t: u8, e: u8) -> u8
    ensures { result ≡ after t e }
{
    match e {
        0 => 1,
        5 => 3,
        11 => 9,
        _ => t,
    }
}

// The level that the start tag opens.
pub fn opened_by(e: u8, x: u8) -> u8
    ensures { result ≡ opens e x }
{
    if e == 1 && has_it(x, 1) {
        return 3;
    }
    open_cell(usize::from(e))
}
