// The round trip of the call that writes a chart (R-4), as theorems over what crate writing says of the call; they are in specs/. A call that answers 0 leaves the chart's
// text in the buffer (Written: written-text), which reads as an equal chart (Written: written-reads); two charts are equal exactly when the texts that stand in the
// buffers are (Alike: documents-written-alike). The kit wants a function in every crate.
#![tactic(auto)]

ghost use Rattle.std.specs.Prelude.{◌≡◌};

// "the answer is new refusal 13" (4.7)
pub fn too_long() -> usize
    ensures { result ≡ 13 }
{
    13
}
