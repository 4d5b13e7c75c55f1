// The value of cond, In('id'): whether it is one, and where its name stands.
ghost use Rattle.std.specs.Prelude.{◌≡◌, true, ◌||◌, ◌≤◌, eqb, length};
ghost use Rattle.grammar.specs.Grammar.{is_token};
ghost use Rattle.reading.specs.Faults.{apostrophe, name_bytes, spelt};
ghost use Rattle.values.specs.Conditions.{opened_at, is_closed, condition_of};

use names::equal;
use scan::is_token;

// How many bytes of an apostrophe, itself or its entity, the value begins with.
pub fn apostrophe_len(value: &[u8]) -> usize
    ensures { result ≡ apostrophe value.now }
{
    if value.len() < 1 {
        return 0;
    }
    let plain = equal(&value[0..1], b"'");
    if plain {
        return 1;
    }
    if value.len() < 6 {
        return 0;
    }
    let entity = equal(&value[0..6], b"&apos;");
    if entity {
        return 6;
    }
    0
}

fn is_name_byte(b: u8) -> bool
    ensures { result ≡ (is_token b || eqb b 46) }
{
    is_token(b) | (b == b'.')
}

// How many bytes of names the value begins with.
pub fn name_len(value: &[u8]) -> usize
    ensures { result ≡ name_bytes value.now }
{
    for j in 0..value.len() {
        if !is_name_byte(value[j]) {
            return j;
        }
    }
    value.len()
}

// Tokens joined by single dots.
pub fn is_spelt(value: &[u8]) -> bool
    ensures { result ≡ spelt true value.now }
{
    let mut fresh = true;
    for i in 0..value.len() {
        let b = value[i];
        let token = is_token(b);
        let dot = b == b'.';
        let joins = dot & !fresh;
        if !token & !joins {
            return false;
        }
        fresh = !token;
    }
    !fresh
}

// Where In's name begins, 0 where the value does not begin with "In(" and an apostrophe.
fn opened_at(value: &[u8]) -> usize
    ensures { result ≡ opened_at value.now }
{
    if value.len() < 3 {
        return 0;
    }
    let begins = equal(&value[0..3], b"In(");
    if !begins {
        return 0;
    }
    let quote = apostrophe_len(&value[3..]);
    if quote < 1 {
        return 0;
    }
    3 + quote
}

// Is what stands behind In's name an apostrophe and ")".
fn is_closed(value: &[u8]) -> bool
    ensures { result ≡ is_closed value.now }
{
    let quote = apostrophe_len(value);
    if quote < 1 {
        return false;
    }
    equal(&value[quote..], b")")
}

// Where a part of a value begins, and where it ends.
#[derive(Clone, Copy)]
pub struct Span {
    pub from: usize,
    pub to: usize,
}

// In's name, if the value is a condition.
pub fn condition_in(value: &[u8]) -> Option<Span>
    requires { length value.now ≤ 32768 }
    ensures { result ≡ condition_of value.now }
{
    let from = opened_at(value);
    if from < 1 {
        return None;
    }
    let to = from + name_len(&value[from..]);
    let named = is_spelt(&value[from..to]);
    let closed = is_closed(&value[to..]);
    if named & closed {
        return Some(Span { from, to });
    }
    None
}
