// 7 and 10, judged by what was counted; and what a quiet round is judged with and shows.
ghost use Rattle.std.specs.Prelude.{◌≡◌, ◌+◌, ◌≤◌, ltb, length};
ghost use Rattle.definition.specs.Tables.{row_count, chart_of};
ghost use Rattle.follower.specs.Microstep.{exiting};
ghost use Rattle.follower.specs.Follower.{refusal_if};
ghost use Rattle.rowset.specs.Member.{rows_of};
ghost use Rattle.chart.specs.Ready.{Ready};
ghost use Rattle.matching.specs.Chosen.{Within};
ghost use Rattle.microstep.specs.Plan.{PlanReady, start_effects};
ghost use Rattle.lookup.specs.Lookup.{quiet_in};
ghost use Rattle.rounds.specs.Calls.{room_in, place_in, shown_count};
ghost use Rattle.rounds.specs.Turns.{judged, untouched};
ghost use Rattle.rounds.specs.Judging.{Counted};
ghost use Rattle.rounds.specs.Traces.{Unskipped, Noted};

use crate::{NOTHING, Outcome, QUIET_ROOM, Turn};
use definition::Answer;
use effects::Tally;
use microstep::Plan;
use rowset::RowSet;

// A round that is not done changes nothing.
pub fn unchanged(outcome: Outcome) -> Turn
    ensures { result ≡ untouched outcome }
{
    Turn {
        outcome: outcome,
        count: 0,
        entries: 0,
    }
}

// Whether the run of this index is quiet.
pub fn is_quiet(index: &[u16]) -> bool
    requires { length index.now ≡ 818 }
    ensures { result ≡ quiet_in index.now }
{
    0 < index[lookup::QUIET]
}

// A quiet round has room for all its entries, and shows none of them (R-10).
pub fn room_of(quiet: bool, room: usize) -> usize
    ensures { result ≡ room_in quiet room }
{
    if quiet {
        return QUIET_ROOM;
    }
    room
}

// Where a run begins to write: a quiet one at the end of the trace.
pub fn place_of(quiet: bool, end: usize) -> usize
    ensures { result ≡ place_in quiet 0 end }
{
    if quiet {
        return end;
    }
    0
}

pub fn shown_of(quiet: bool, n: usize) -> usize
    ensures { result ≡ shown_count quiet n }
{
    if quiet {
        return 0;
    }
    n
}

// 7 for more than 32 internal names, then 10 for entries that do not fit the room; else it is done.
pub fn judge(kept: u64, tally: Tally, room: usize) -> Outcome
    requires { kept ≤ 32 }
    ensures { result ≡ judged (refusal_if (ltb 32 (kept + tally.names)) (ltb room tally.entries)) }
{
    let free = queue::MOST_QUEUED - kept;
    let left = room as u64;
    if free < tally.names {
        return Outcome::Refused(Answer::Full);
    }
    if left < tally.entries {
        return Outcome::Refused(Answer::NoRoom);
    }
    Outcome::Did
}

// A closing round and a start are counted with no trace to write into.
pub fn count_closing(chart: &[u64], conf: RowSet) -> Tally
    requires { Ready chart.now × Within (row_count chart.now) (rows_of conf) }
    ensures { Counted result (exiting (chart_of chart.now) (rows_of conf) (rows_of conf)) }
{
    let mut none = [0u32; 0];
    let mut nobody = [0u32; 0];
    microstep::closing_effects(chart, conf, &mut none, &mut nobody, NOTHING)
}

// What joins at a start is noted, and what is sent and cancelled.
pub fn count_first(chart: &[u64], plan: Plan, notes: &mut [u32]) -> Tally
    requires { PlanReady chart.now plan × Unskipped notes.old }
    ensures { Counted result (start_effects (chart_of chart.now) plan) × Noted notes.new result (start_effects (chart_of chart.now) plan) }
{
    let mut none = [0u32; 0];
    microstep::first_effects(chart, plan, &mut none, notes, NOTHING)
}
