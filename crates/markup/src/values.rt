// The steps of the grammar in the values of attributes: names, descriptors, free values with entities.
ghost use Rattle.std.specs.Prelude.{◌≡◌, ◌<◌};
ghost use Rattle.grammar.specs.Grammar.{name_step, value_step, value_ends, quote_step, value_at, value_step_at, entity_at, entity_step};

use grammar::{Place, Step};
use scan::{is_space, is_token, kind_of, pick_word, with_it, word_byte};

// Behind "=".
pub fn quote_step(e: u8, x: u8, j: u8, t: u8, b: u8) -> Step
    ensures { result ≡ quote_step e x j t b }
{
    let space = is_space(b);
    if space {
        return Step::Go(Place::Quote(e, x, j), t);
    }
    let quote = (b == 34) | (b == 39);
    if quote {
        return Step::Go(Place::Value(e, x, j, b, 0), t);
    }
    Step::Fault
}

// The state of a value of names behind one more byte, or 5.
// Kept: states, kinds and words are the numbers of the definition (Rattle.grammar.specs.Grammar.name_step).
pub fn of_names(kind: u8, v: u8, b: u8) -> u8
    ensures { result ≡ name_step kind v b }
{
    let token = is_token(b) & (v <= 3);
    if token {
        return 1;
    }
    let dot = (b == 46) & (v == 1);
    if dot {
        return 2;
    }
    let apart = is_space(b) & (2 <= kind);
    let first = apart & (v == 0);
    if first {
        return 0;
    }
    let later = apart & !(v == 2);
    if later {
        return 3;
    }
    let star = (b == 42) & (kind == 3) & (v <= 3) & !(v == 1);
    if star {
        return 4;
    }
    5
}

// The same of any value.
pub fn value_step(kind: u8, v: u8, b: u8) -> u8
    ensures { result ≡ value_step kind v b }
{
    let free = kind == 0;
    let less = b == 60;
    if free {
        if less {
            return 5;
        }
        return 0;
    }
    of_names(kind, v, b)
}

// May the quote come.
pub fn value_ends(kind: u8, v: u8) -> bool
    ensures { result ≡ value_ends kind v }
{
    (kind == 0) | (v == 1) | (3 <= v)
}

// The value goes on, if it may.
pub fn value_at(v: u8, e: u8, x: u8, j: u8, q: u8, t: u8) -> Step
    ensures { result ≡ value_at v e x j q t }
{
    let none = v == 5;
    if none {
        return Step::Fault;
    }
    Step::Go(Place::Value(e, x, j, q, v), t)
}

// In a value.
pub fn in_value(e: u8, x: u8, j: u8, q: u8, v: u8, t: u8, b: u8) -> Step
    ensures { result ≡ value_step_at e x j q v t b }
{
    let kind = kind_of(e, j);
    let quote = b == q;
    if quote {
        let whole = value_ends(kind, v);
        if whole {
            return Step::Go(Place::Tag(e, with_it(x, j)), t);
        }
        return Step::Fault;
    }
    let and = (b == 38) & (kind == 0);
    if and {
        return Step::Go(Place::Ampersand(e, x, j, q), t);
    }
    value_at(value_step(kind, v, b), e, x, j, q, t)
}

// So many bytes of an entity's name are read, if there is one.
pub fn entity_at(w: u8, k: u16, e: u8, x: u8, j: u8, q: u8, t: u8) -> Step
    ensures { result ≡ entity_at w k e x j q t }
{
    let none = w == 48;
    if none {
        return Step::Fault;
    }
    Step::Go(Place::Entity(e, x, j, q, w, k), t)
}

// In an entity's name.
pub fn entity_step(e: u8, x: u8, j: u8, q: u8, w: u8, k: u16, t: u8, b: u8) -> Step
    requires { k < 65535 }
    ensures { result ≡ entity_step e x j q w k t b }
{
    let expected = word_byte(w, k);
    let same = expected == b;
    if same {
        return Step::Go(Place::Entity(e, x, j, q, w, k + 1), t);
    }
    let semicolon = b == 59;
    let ended = expected == 0;
    if semicolon {
        if ended {
            return Step::Go(Place::Value(e, x, j, q, 0), t);
        }
        return Step::Fault;
    }
    entity_at(pick_word(32, w, k, b), k + 1, e, x, j, q, t)
}
