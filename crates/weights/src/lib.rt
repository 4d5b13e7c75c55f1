// How many bytes of a text its tags take at least, and how many cells of its tables they pay for (R-1): by these theorems, which are in specs/, the places that a text
// is read with are no longer than a text of 32,768 bytes needs. The kit wants a function in every crate.
#![tactic(auto)]

ghost use Rattle.std.specs.Prelude.{◌≡◌};

// The shortest tag, as "<if>" would be.
pub fn least_tag() -> usize
    ensures { result ≡ 4 }
{
    4
}
