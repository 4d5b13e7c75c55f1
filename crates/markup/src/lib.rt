// The grammar of texts (R-1) in code: one byte at a time, with the levels of the open elements in a stack.
#![tactic(auto)]

ghost use Rattle.std.specs.Prelude.{◌≡◌, ◌<◌, length};
ghost use Rattle.grammar.specs.Grammar.{step_of, is_content};
ghost use Rattle.markup.specs.Growth.{word_at};
ghost use Rattle.markup.specs.Stack.{Landed};
ghost use Rattle.markup.specs.Passes.{finished};

use grammar::{Place, Step};
use scan::pick_word;

mod comments;
pub mod leaps;
mod runs;
mod tags;
mod values;

// Where a text of the grammar has come to, beside the stack of levels.
#[derive(Clone, Copy)]
pub struct Cursor {
    pub place: Place,
    pub top: u8,
    pub depth: usize,
}

// One byte at any place.
pub fn advance(p: Place, t: u8, b: u8) -> Step
    requires { word_at p < 65535 }
    ensures { result ≡ step_of p t b }
{
    match p {
        Place::Content => tags::content_step(t, b),
        Place::Less => tags::less_step(t, b),
        Place::Bang => tags::only_byte(45, Place::Dash, t, b),
        Place::Dash => tags::only_byte(45, Place::Comment, t, b),
        Place::Comment => comments::inner_step(Place::CommentDash, t, b),
        Place::CommentDash => comments::inner_step(Place::CommentEnd, t, b),
        Place::CommentEnd => comments::dashes_step(t, b),
        Place::Name(w, k) => tags::name_step(w, k, t, b),
        Place::Tag(e, x) => tags::tag_step(e, x, t, b),
        Place::Space(e, x) => tags::space_step(e, x, t, b),
        Place::Attribute(e, x, j, k) => tags::attribute_step(e, x, j, k, t, b),
        Place::Equals(e, x, j) => tags::equals_step(e, x, j, t, b),
        Place::Quote(e, x, j) => values::quote_step(e, x, j, t, b),
        Place::Value(e, x, j, q, v) => values::in_value(e, x, j, q, v, t, b),
        Place::Ampersand(e, x, j, q) => values::entity_at(
            pick_word(32, 48, 0, b),
            1,
            e,
            x,
            j,
            q,
            t,
        ),
        Place::Entity(e, x, j, q, w, k) => values::entity_step(e, x, j, q, w, k, t, b),
        Place::Slash => tags::only_byte(62, Place::Content, t, b),
        Place::End(k) => tags::end_step(k, t, b),
        Place::Close => tags::close_step(t, b),
    }
}

// Where a step leads, if to any place, with the stack of levels as it then is.
pub fn moved_to(stack: &mut [u8], depth: usize, s: Step) -> Option<Cursor>
    requires { depth < length stack.old }
    ensures { Landed stack.old stack.new depth s result }
{
    match s {
        Step::Fault => None,
        Step::Go(p, t) => Some(Cursor {
            place: p,
            top: t,
            depth,
        }),
        Step::Open(u, v) => {
            stack[depth] = u;
            Some(Cursor {
                place: Place::Content,
                top: v,
                depth: depth + 1,
            })
        }
        Step::Shut => {
            if depth == 0 {
                return None;
            }
            let at = depth - 1;
            let t = stack[at];
            Some(Cursor {
                place: Place::Content,
                top: t,
                depth: at,
            })
        }
    }
}

// Is the place between tags.
fn is_content(p: Place) -> bool
    ensures { result ≡ is_content p }
{
    matches!(p, Place::Content)
}

// The offset of the first fault of a text.
#[derive(Clone, Copy, PartialEq, Eq)]
pub struct Fault {
    pub at: usize,
}

// The bytes before i are read, of n: is the text of the grammar.
pub fn finish(n: usize, place: Place, top: u8, i: usize) -> Result<(), Fault>
    ensures { result ≡ finished n place top i }
{
    if (n <= i) & is_content(place) & (top == 1) {
        return Ok(());
    }
    Err(Fault { at: i })
}
