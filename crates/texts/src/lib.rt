// Texts and what they mean, as theorems by computation: the facts are in specs/, as texts.py writes them.
#![tactic(auto)]

ghost use Rattle.std.specs.Prelude.{◌≡◌};

// How many texts there are; the kit wants a function in every crate.
pub fn texts() -> usize
    ensures { result ≡ 75 }
{
    75
}
