// What the definitions of crate reading say of texts (R-1), as theorems, which are in specs/: the tags of a text of the grammar are balanced (Balanced: text-balanced), its
// rows have no id and then those that references are looked for in (Rooted: text-rows), and its first fault is the least offset at which a fault stands (Least: first-least).
// The kit wants a function in every crate.
#![tactic(auto)]

ghost use Rattle.std.specs.Prelude.{◌≡◌};

// How many elements there are: scxml to cancel, and transition twice, since that of an initial element has other attributes.
pub fn elements() -> usize
    ensures { result ≡ 17 }
{
    17
}
