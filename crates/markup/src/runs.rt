// Runs of bytes that one loop reads: white space, the inside of a comment, a word, a value.
ghost use Rattle.std.specs.Prelude.{◌≡◌, ◌≤◌};
ghost use Rattle.grammar.specs.Grammar.{is_space};
ghost use Rattle.markup.specs.Runs.{Ends, Ran, in_comment, Block, is_letter, Worded, value_next, Went};

use crate::values::value_step;
use scan::{is_char, is_space, kind_of, word_byte};

// How many bytes of a word have been read before the index.
#[derive(Clone, Copy)]
pub struct WordEnd {
    pub read: u16,
    pub index: usize,
}

// The state of a value before the index.
#[derive(Clone, Copy)]
pub struct ValueEnd {
    pub state: u8,
    pub index: usize,
}

// Kept: two loops that differ in the test, this and comment_rest: with the test as a parameter the contract would need a law for what it computes.
pub fn spaces_end(text: &[u8], end: usize, i: usize) -> usize
    requires { Ends text.now end i }
    ensures { Ran is_space text.now end i result }
{
    for j in i..end {
        if !is_space(text[j]) {
            return j;
        }
    }
    end
}

// A byte of a comment but the dash.
fn in_comment(b: u8) -> bool
    ensures { result ≡ in_comment b }
{
    is_char(b) & (b != b'-')
}

fn comment_rest(text: &[u8], end: usize, i: usize) -> usize
    requires { Ends text.now end i }
    ensures { Ran in_comment text.now end i result }
{
    for j in i..end {
        if !in_comment(text[j]) {
            return j;
        }
    }
    end
}

// Are there 32 bytes from i on, all inside a comment: no way out in between, so that the compiler reads them by vectors.
fn all_in_comment(text: &[u8], end: usize, i: usize) -> bool
    requires { Ends text.now end i }
    ensures { Block in_comment text.now end i 32 result }
{
    let left = end - i;
    if left < 32 {
        return false;
    }
    let mut all = true;
    for k in 0..32 {
        let inside = in_comment(text[i + k]);
        all = all & inside;
    }
    all
}

pub fn comment_end(text: &[u8], end: usize, i: usize) -> usize
    requires { Ends text.now end i }
    ensures { Ran in_comment text.now end i result }
{
    // Kept: steps of 32 whose rest another loop reads; after a `for` with step_by the index would be lost.
    let mut j = i;
    while j < end {
        let all = all_in_comment(text, end, j);
        if !all {
            return comment_rest(text, end, j);
        }
        j += 32;
    }
    j
}

// Is the byte the one of the word at k.
fn is_letter(w: u8, k: u16, b: u8) -> bool
    ensures { result ≡ is_letter w k b }
{
    let same = word_byte(w, k) == b;
    same & is_char(b)
}

// The word w goes on as far as the text does, from its byte k on.
pub fn word_end(text: &[u8], end: usize, w: u8, k: u16, i: usize) -> WordEnd
    requires { Ends text.now end i × (k ≤ i) }
    ensures { Worded text.now end w k i result.read result.index }
{
    let mut n = k;
    for j in i..end {
        if !is_letter(w, n, text[j]) {
            return WordEnd { read: n, index: j };
        }
        n += 1;
    }
    WordEnd {
        read: n,
        index: end,
    }
}

// The state of a value behind one more byte, 5 where the byte ends it, begins an entity or may not stand there.
fn value_next(kind: u8, q: u8, v: u8, b: u8) -> u8
    ensures { result ≡ value_next kind q v b }
{
    let plain = is_char(b);
    if !plain {
        return 5;
    }
    let other = (b == q) | ((b == 38) & (kind == 0));
    if other {
        return 5;
    }
    value_step(kind, v, b)
}

pub fn value_end(text: &[u8], end: usize, e: u8, a: u8, q: u8, v: u8, i: usize) -> ValueEnd
    requires { Ends text.now end i }
    ensures { Went text.now end e a q v i result.state result.index }
{
    let kind = kind_of(e, a);
    let mut u = v;
    for j in i..end {
        let next = value_next(kind, q, u, text[j]);
        if next == 5 {
            return ValueEnd { state: u, index: j };
        }
        u = next;
    }
    ValueEnd {
        state: u,
        index: end,
    }
}
