// Writing a chart back (R-4), as theorems over the definitions of crate reading; they are in specs/. What is written of an accepted chart is of the grammar, has no
// fault, and reads as an equal chart, which is accepted and written alike (ReadWhole: reads-back); two documents read to equal charts exactly when they are
// written alike (Documents: documents-alike). The kit wants a function in every crate.
#![tactic(auto)]

ghost use Rattle.std.specs.Prelude.{◌≡◌};

// "passes the reader's 32,768 bytes" (4.7)
pub fn most_bytes() -> usize
    ensures { result ≡ 32768 }
{
    32768
}
