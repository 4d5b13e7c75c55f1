// The grammar of the texts that are read (R-1): the enums that its definition in specs/ and the code share.
#![tactic(auto)]

ghost use Rattle.std.specs.Prelude.{◌≡◌};

// Where a text stands between two bytes. The fields, in their order: w a word and k how many of its bytes are read; e an element, x the set of
// its attributes so far and j an attribute's place in the element's row; q the quote that ends a value and v the state of a value of names.
#[derive(Clone, Copy)]
pub enum Place {
    Content,
    Less,
    Bang,
    Dash,
    Comment,
    CommentDash,
    CommentEnd,
    Name(u8, u16),
    Tag(u8, u8),
    Space(u8, u8),
    Attribute(u8, u8, u8, u16),
    Equals(u8, u8, u8),
    Quote(u8, u8, u8),
    Value(u8, u8, u8, u8, u8),
    Ampersand(u8, u8, u8, u8),
    Entity(u8, u8, u8, u8, u8, u16),
    Slash,
    End(u16),
    Close,
}

// What a byte does: no text of the grammar has it there; it leads to a place, with the innermost level as it is then; an element is opened, with
// its parent's level and its own; the innermost element is closed.
#[derive(Clone, Copy)]
pub enum Step {
    Fault,
    Go(Place, u8),
    Open(u8, u8),
    Shut,
}

// "a document of at most 32,768 bytes" (1.1); the kit wants a function in every crate.
pub fn most_bytes() -> usize
    ensures { result ≡ 32768 }
{
    32768
}
