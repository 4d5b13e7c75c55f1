// The steps of the grammar between tags and in tags up to a value: each equals the definition's.
ghost use Rattle.std.specs.Prelude.{◌≡◌, ◌<◌};
ghost use Rattle.grammar.specs.Grammar.{content_step, name_at, less_step, tag_step, name_step_at, attribute_at, space_step, equals_step, attribute_step, close_step, end_step, only};

use grammar::{Place, Step};
use scan::{
    attribute_of, is_complete, is_space, is_token, level_after, may_end, opened_by, owner_of,
    pick_attribute, pick_word, word_byte,
};

// Between tags.
pub fn content_step(t: u8, b: u8) -> Step
    ensures { result ≡ content_step t b }
{
    let space = is_space(b);
    if space {
        return Step::Go(Place::Content, t);
    }
    let less = b == 60;
    if less {
        return Step::Go(Place::Less, t);
    }
    Step::Fault
}

// So many bytes of a word are read, if there is such a word.
pub fn name_at(w: u8, k: u16, t: u8) -> Step
    ensures { result ≡ name_at w k t }
{
    let none = w == 48;
    if none {
        return Step::Fault;
    }
    Step::Go(Place::Name(w, k), t)
}

// Behind "<".
pub fn less_step(t: u8, b: u8) -> Step
    ensures { result ≡ less_step t b }
{
    let bang = b == 33;
    if bang {
        return Step::Go(Place::Bang, t);
    }
    let ending = (b == 47) & may_end(t);
    if ending {
        return Step::Go(Place::End(0), t);
    }
    name_at(pick_word(t, 48, 0, b), 1, t)
}

// Behind the name or a value in a start tag.
pub fn tag_step(e: u8, x: u8, t: u8, b: u8) -> Step
    ensures { result ≡ tag_step e x t b }
{
    let space = is_space(b);
    if space {
        return Step::Go(Place::Space(e, x), t);
    }
    let whole = is_complete(e, x);
    let level = opened_by(e, x);
    let opening = (b == 62) & whole;
    if opening {
        return Step::Open(t, level);
    }
    let empty = (b == 47) & whole & may_end(level);
    if empty {
        return Step::Go(Place::Slash, t);
    }
    Step::Fault
}

// In a start tag's name.
pub fn name_step(w: u8, k: u16, t: u8, b: u8) -> Step
    requires { k < 65535 }
    ensures { result ≡ name_step_at w k t b }
{
    let expected = word_byte(w, k);
    let same = expected == b;
    if same {
        return Step::Go(Place::Name(w, k + 1), t);
    }
    let token = is_token(b);
    let ended = (expected == 0) & !token;
    if ended {
        return tag_step(w, 0, level_after(t, w), b);
    }
    name_at(pick_word(t, w, k, b), k + 1, t)
}

// So many bytes of an attribute's name are read, if there is one.
pub fn attribute_at(j: u8, k: u16, e: u8, x: u8, t: u8) -> Step
    ensures { result ≡ attribute_at j k e x t }
{
    let none = j == 4;
    if none {
        return Step::Fault;
    }
    Step::Go(Place::Attribute(e, x, j, k), t)
}

// Behind white space in a start tag.
pub fn space_step(e: u8, x: u8, t: u8, b: u8) -> Step
    ensures { result ≡ space_step e x t b }
{
    let token = is_token(b);
    if token {
        return attribute_at(pick_attribute(e, x, 48, 0, b), 1, e, x, t);
    }
    tag_step(e, x, t, b)
}

// Behind an attribute's name.
pub fn equals_step(e: u8, x: u8, j: u8, t: u8, b: u8) -> Step
    ensures { result ≡ equals_step e x j t b }
{
    let space = is_space(b);
    if space {
        return Step::Go(Place::Equals(e, x, j), t);
    }
    let equals = b == 61;
    if equals {
        return Step::Go(Place::Quote(e, x, j), t);
    }
    Step::Fault
}

// In an attribute's name.
pub fn attribute_step(e: u8, x: u8, j: u8, k: u16, t: u8, b: u8) -> Step
    requires { k < 65535 }
    ensures { result ≡ attribute_step e x j k t b }
{
    let w = attribute_of(e, j);
    let expected = word_byte(w, k);
    let same = expected == b;
    if same {
        return Step::Go(Place::Attribute(e, x, j, k + 1), t);
    }
    let token = is_token(b);
    let ended = (expected == 0) & !token;
    if ended {
        return equals_step(e, x, j, t, b);
    }
    attribute_at(pick_attribute(e, x, w, k, b), k + 1, e, x, t)
}

// Behind an end tag's name.
pub fn close_step(t: u8, b: u8) -> Step
    ensures { result ≡ close_step t b }
{
    let space = is_space(b);
    if space {
        return Step::Go(Place::Close, t);
    }
    let greater = b == 62;
    if greater {
        return Step::Shut;
    }
    Step::Fault
}

// In an end tag.
pub fn end_step(k: u16, t: u8, b: u8) -> Step
    requires { k < 65535 }
    ensures { result ≡ end_step k t b }
{
    let expected = word_byte(owner_of(t), k);
    let same = expected == b;
    if same {
        return Step::Go(Place::End(k + 1), t);
    }
    let ended = expected == 0;
    if ended {
        return close_step(t, b);
    }
    Step::Fault
}

// A byte that has to come.
pub fn only_byte(a: u8, p: Place, t: u8, b: u8) -> Step
    ensures { result ≡ only a p t b }
{
    let here = b == a;
    if here {
        return Step::Go(p, t);
    }
    Step::Fault
}
