// The session's half of the definition, in specs/: what a session does, sentence by sentence. The chart's half is crate definition. The kit wants a function in every crate; this one gives how many names a queue holds at most.
#![tactic(auto)]

ghost use Rattle.std.specs.Prelude.{◌≡◌};
ghost use Rattle.follower.specs.Follower.{most_queued};

pub fn queue_places() -> u64
    ensures { result ≡ most_queued }
{
    32
}
