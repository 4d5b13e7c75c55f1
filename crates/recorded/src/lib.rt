// The definition of R-10, in specs/: what a journal holds, where it leads when it is replayed, and the calls with a journal. The calls without one are crate follower's, and did not
// move. The kit wants a function in every crate; this one gives how many entries a journal holds at most.
#![tactic(auto)]

ghost use Rattle.std.specs.Prelude.{◌≡◌};
ghost use Rattle.recorded.specs.Journal.{most_entries};

pub fn most_entries() -> u64
    ensures { result ≡ most_entries }
{
    512
}
