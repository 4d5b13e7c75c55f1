// The call that writes a chart back (R-4), as a definition: it is in specs/. The kit wants a function in every crate.
#![tactic(auto)]

ghost use Rattle.std.specs.Prelude.{◌≡◌};

// "new refusal 13" (4.7)
pub fn no_text() -> u32
    ensures { result ≡ 13 }
{
    13
}
