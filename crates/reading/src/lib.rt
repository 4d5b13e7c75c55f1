// What a text of the grammar means (R-1): the definitions are in specs/. Here stands the enum that they share with the code.
#![tactic(auto)]

ghost use Rattle.std.specs.Prelude.{◌≡◌};

// What of a place in the text the tags go by: between tags; behind a "<"; in the start tag of an element e; in the value of the attribute in place j
// of its row; behind the "/" of an empty-element tag.
#[derive(Clone, Copy)]
pub enum Zone {
    Outside,
    Begun,
    InTag(u8),
    InValue(u8, u8),
    Slash,
}

// "a name or descriptor over 63 bytes" (1.10); the kit wants a function in every crate.
pub fn most_name() -> usize
    ensures { result ≡ 63 }
{
    63
}
