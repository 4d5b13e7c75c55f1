// A step that sends or cancels: what it leaves of the clock record is drafted, judged with the step, and kept where that is done (R-9).
ghost use Rattle.std.specs.Prelude.{◌≡◌, ◌≤◌};
ghost use Rattle.definition.specs.Tables.{transition_count};
ghost use Rattle.matching.specs.Chosen.{ChosenIn};
ghost use Rattle.microstep.specs.Plan.{PlanReady};
ghost use Rattle.rounds.specs.Timing.{step_effects, TimersReady, AppliedAll, NotedFrom, NoteRoom, JudgesTimed};

use crate::judging::judge;
use crate::taking::step_effects;
use crate::{Outcome, Step};
use definition::Answer;
use effects::Tally;
use places::copy;

// The place of notes has, behind the joins, a cell for how many sends and cancels are passed over, then two for each that is noted.
const SKIPPED: usize = 32;

const FIRST: usize = 33;

// So many are noted where a step is worked out first, and so many where it is worked out again for the next ones.
const NOTED: u64 = 8;

const WINDOW: u64 = 1024;

const WINDOW_NOTES: usize = 2081;

// The step is worked out again with no trace to write into, and so many sends and cancels passed over.
fn note_from(chart: &[u64], step: Step, items: &[u16], done: u64, notes: &mut [u32])
    requires { PlanReady chart.now step.plan × ChosenIn (transition_count chart.now) items.now step.len × NoteRoom notes.old done }
    ensures { NotedFrom (step_effects chart.now items.now step) done notes.old notes.new }
{
    notes[SKIPPED] = done as u32;
    let mut none = [0u32; 0];
    step_effects(chart, step, items, &mut none, notes);
}

// The sends and cancels of the step, one after the other: those that were noted while it was drafted, then window after window. It ends where one finds no place.
fn apply_timers(
    chart: &[u64],
    names: &[u8],
    step: Step,
    items: &[u16],
    tally: Tally,
    notes: &[u32],
    clock: &mut [u8],
) -> bool
    requires { PlanReady chart.now step.plan × ChosenIn (transition_count chart.now) items.now step.len × TimersReady names.now (step_effects chart.now items.now step) tally notes.now clock.old }
    ensures { AppliedAll names.now (step_effects chart.now items.now step) clock.old clock.new result }
{
    let timers = tally.timers;
    let first = timers.min(NOTED);
    let end = FIRST + (first as usize) * 2;
    if clock::apply(names, &notes[FIRST..end], clock) {
        return true;
    }
    if timers <= NOTED {
        return false;
    }
    let mut done = first;
    let mut more = [0u32; WINDOW_NOTES];
    while done < timers {
        note_from(chart, step, items, done, &mut more);
        let n = (timers - done).min(WINDOW);
        let to = FIRST + (n as usize) * 2;
        if clock::apply(names, &more[FIRST..to], clock) {
            return true;
        }
        done += n;
    }
    false
}

// "A full table refuses the round or start with 7", before 10; a refused one "leaves the clock record as before".
pub fn judge_timed(
    chart: &[u64],
    names: &[u8],
    step: Step,
    items: &[u16],
    kept: u64,
    tally: Tally,
    notes: &[u32],
    clock: &mut [u8],
    room: usize,
) -> Outcome
    requires { PlanReady chart.now step.plan × ChosenIn (transition_count chart.now) items.now step.len × TimersReady names.now (step_effects chart.now items.now step) tally notes.now clock.old × (kept ≤ 32) }
    ensures { JudgesTimed names.now (step_effects chart.now items.now step) kept tally clock.old clock.new room result }
{
    let mut draft = [0u8; clock::CLOCK];
    copy(clock, &mut draft);
    if apply_timers(chart, names, step, items, tally, notes, &mut draft) {
        return Outcome::Refused(Answer::Full);
    }
    let outcome = judge(kept, tally, room);
    let Outcome::Did = outcome else {
        return outcome;
    };
    copy(&draft, clock);
    outcome
}
