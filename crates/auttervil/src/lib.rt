// The functions that a C program calls. A lent slice is a pointer and then the count of its elements; an answer is the number that document 01 gives it.
// No function asks anything of its arguments but what C has to keep for every lent place: that it is there, aligned and as long as is said, and that a place that
// is written overlaps no other.
#![tactic(auto)]

ghost use Rattle.std.specs.Prelude.{◌≡◌, cond, ◌*◌, length};
ghost use Rattle.definition.specs.Tables.{name_count, slot_size};
ghost use Rattle.definition.specs.Rules.{counts_fit, compiled_size};
ghost use Rattle.definition.specs.Answers.{answer_no};
ghost use Rattle.fingerprint.specs.Fingerprint.{fingerprint};
ghost use Rattle.room.specs.Room.{room_of};
ghost use Rattle.session.specs.Sessions.{post_of, run_of, run_effects, clock_of};
ghost use Rattle.lent.specs.Places.{session_in, record_in, places_fit, start_in, start_in_effects};
ghost use Rattle.calls.specs.Calls.{calls_of};
ghost use Rattle.calls.specs.Performing.{both_in, Performs, calls_in};
ghost use Rattle.reading.specs.Calls.{call_of};
ghost use Rattle.writing.specs.Calls.{call_of as write_of};
ghost use Rattle.read_text.specs.Whole.{places_fit as work_fits, read_with, WorkKept};
ghost use Rattle.auttervil.specs.Exports.{CompilesTo, chart_answer, StartsTo, PostsTo, ClocksTo, RunsTo, StepsTo, read_outcome, write_outcome};

use definition::Answer;

// The number of this ABI: it stands in the name of every function too, so that an archive of another one does not link.
#[unsafe(no_mangle)]
pub extern "C" fn auttervil_raw3_version() -> u32
    ensures { result ≡ 3 }
{
    3
}

// ---- the sizes of the two places for a compiled chart; 0 where the header's counts break rule 1

#[unsafe(no_mangle)]
pub extern "C" fn auttervil_raw3_numbers_size(numbers: &[u64]) -> usize
    ensures { result ≡ cond (counts_fit numbers.now) (compiled_size numbers.now) 0 }
{
    compiler::numbers_size(numbers)
}

#[unsafe(no_mangle)]
pub extern "C" fn auttervil_raw3_names_size(numbers: &[u64]) -> usize
    ensures { result ≡ cond (counts_fit numbers.now) (name_count numbers.now * slot_size) 0 }
{
    compiler::names_size(numbers)
}

// ---- compiling

// 0 and both places written, or the first rule broken and both as they were.
#[unsafe(no_mangle)]
pub extern "C" fn auttervil_raw3_compile(
    numbers: &[u64],
    names: &[u8],
    place: &mut [u64],
    name_place: &mut [u8],
) -> u32
    ensures { CompilesTo numbers.now names.now place.old name_place.old result place.new name_place.new }
{
    let answer = compiler::compile(numbers, names, place, name_place);
    answers::answer_number(answer)
}

// 8 where the places hold no compiled chart, else 0.
#[unsafe(no_mangle)]
pub extern "C" fn auttervil_raw3_check(place: &[u64], name_place: &[u8]) -> u32
    ensures { result ≡ answer_no (chart_answer place.now name_place.now) }
{
    if compiler::check(place, name_place) {
        return answers::answer_number(Answer::Done);
    }
    answers::answer_number(Answer::BadChart)
}

// One number of a compiled chart's places, by which a host can see that a stored session belongs to them.
#[unsafe(no_mangle)]
pub extern "C" fn auttervil_raw3_fingerprint(chart: &[u64], names: &[u8]) -> u64
    ensures { result ≡ fingerprint chart.now names.now }
{
    fingerprint::fingerprint(chart, names)
}

// How many entries suffice for any one start or round of a compiled chart; 0 where the places hold none.
#[unsafe(no_mangle)]
pub extern "C" fn auttervil_raw3_room(chart: &[u64], names: &[u8]) -> usize
    ensures { result ≡ room_of chart.now names.now }
{
    room::room(chart, names)
}

// ---- a session, lent in three places that are changed where they lie: its numbers (configuration 4, stored history 1,024, the names that wait in the internal and in the
// external queue, the mode), its internal and its external queue (2,048 bytes each); and its clock record in a fourth (4,368 bytes). Places of other lengths are left as they were: a start
// answers 9, to a post, a run, a clock call or a step they are no session, and no call of a list is performed.

// The first count entries of the trace are the start's.
#[repr(C)]
#[derive(Clone, Copy)]
pub struct StartResult {
    pub answer: u32,
    pub count: usize,
}

// A session in the root's initial targets; or 8, 7, 10, an ended session and the trace as it was. What the places held counts for nothing.
#[unsafe(no_mangle)]
pub extern "C" fn auttervil_raw3_start(
    numbers: &mut [u64],
    internal: &mut [u8],
    external: &mut [u8],
    clock: &mut [u8],
    chart: &[u64],
    names: &[u8],
    trace: &mut [u32],
) -> StartResult
    ensures { StartsTo (start_in (places_fit (length numbers.old) (length internal.old) (length external.old) (length clock.old)) (session_in numbers.old internal.old external.old) (record_in clock.old) chart.now names.now (length trace.old)) (start_in_effects (places_fit (length numbers.old) (length internal.old) (length external.old) (length clock.old)) chart.now names.now (length trace.old)) trace.old (session_in numbers.new internal.new external.new) (record_in clock.new) result trace.new }
{
    let started = lent::start(numbers, internal, external, clock, chart, names, trace);
    let answer = started.answer;
    let count = started.count;
    StartResult {
        answer: answers::answer_number(answer),
        count: count,
    }
}

// The name last in the external queue, or 8, 9, 6, 11, 7 and nothing changed.
#[unsafe(no_mangle)]
pub extern "C" fn auttervil_raw3_post(
    numbers: &mut [u64],
    internal: &[u8],
    external: &mut [u8],
    chart: &[u64],
    names: &[u8],
    name: &[u8],
) -> u32
    ensures { PostsTo (post_of (session_in numbers.old internal.now external.old) chart.now names.now name.now) (session_in numbers.new internal.now external.new) result }
{
    let answer = lent::post(numbers, internal, external, chart, names, name);
    answers::answer_number(answer)
}

// The clock moves on to these ticks, and whatever is due joins the external queue (R-9); or 8, 9, 11, 14 and nothing changed.
#[unsafe(no_mangle)]
pub extern "C" fn auttervil_raw3_advance(
    numbers: &mut [u64],
    internal: &[u8],
    external: &mut [u8],
    clock: &mut [u8],
    chart: &[u64],
    names: &[u8],
    ticks: u64,
) -> u32
    ensures { ClocksTo (clock_of (session_in numbers.old internal.now external.old) (record_in clock.old) chart.now names.now ticks) (session_in numbers.new internal.now external.new) (record_in clock.new) result }
{
    let answer = lent::clock(numbers, internal, external, clock, chart, names, ticks);
    answers::answer_number(answer)
}

// The first count entries of the trace are those of the rounds done.
#[repr(C)]
#[derive(Clone, Copy)]
pub struct RunResult {
    pub status: u32,
    pub rounds: u32,
    pub count: usize,
}

// At most so many rounds. 8 or 9 changes nothing; 7 or 10 leaves what was before the round that it refuses.
#[unsafe(no_mangle)]
pub extern "C" fn auttervil_raw3_run(
    numbers: &mut [u64],
    internal: &mut [u8],
    external: &mut [u8],
    clock: &mut [u8],
    chart: &[u64],
    names: &[u8],
    rounds: u32,
    trace: &mut [u32],
) -> RunResult
    ensures { RunsTo (run_of (session_in numbers.old internal.old external.old) (record_in clock.old) chart.now names.now rounds (length trace.old)) (run_effects (session_in numbers.old internal.old external.old) (record_in clock.old) chart.now names.now rounds (length trace.old)) trace.old (session_in numbers.new internal.new external.new) (record_in clock.new) result trace.new }
{
    let ran = lent::run(
        numbers, internal, external, clock, chart, names, rounds, trace,
    );
    let status = ran.status;
    let number = ran.rounds;
    let count = ran.count;
    RunResult {
        status: answers::status_number(status),
        rounds: number,
        count: count,
    }
}

#[repr(C)]
#[derive(Clone, Copy)]
pub struct StepResult {
    pub answer: u32,
    pub status: u32,
    pub rounds: u32,
    pub count: usize,
}

// A post and then a run, as the two calls do them, with one check of chart and session.
#[unsafe(no_mangle)]
pub extern "C" fn auttervil_raw3_step(
    numbers: &mut [u64],
    internal: &mut [u8],
    external: &mut [u8],
    clock: &mut [u8],
    chart: &[u64],
    names: &[u8],
    name: &[u8],
    rounds: u32,
    trace: &mut [u32],
) -> StepResult
    ensures { StepsTo (session_in numbers.old internal.old external.old) (record_in clock.old) chart.now names.now name.now rounds trace.old (session_in numbers.new internal.new external.new) (record_in clock.new) result trace.new }
{
    let stepped = lent::step(
        numbers, internal, external, clock, chart, names, name, rounds, trace,
    );
    let answer = stepped.answer;
    let status = stepped.status;
    let number = stepped.rounds;
    let count = stepped.count;
    StepResult {
        answer: answers::answer_number(answer),
        status: answers::status_number(status),
        rounds: number,
        count: count,
    }
}

// ---- a list of calls

// Seven numbers a call: its kind (0 a start, 1 a post, 2 a run, 3 a clock call), the length of its own window of the trace, a and b (for a post where its name begins and ends in the text, for a
// run its rounds in a, for a clock call its ticks in a), and three that the call writes: the number of its answer or status, the rounds done, the count of its entries. The list ends before the
// first call that is none, or that the trace has no room for. Chart, session and clock record are checked once.
#[unsafe(no_mangle)]
pub extern "C" fn auttervil_raw3_perform(
    numbers: &mut [u64],
    internal: &mut [u8],
    external: &mut [u8],
    clock: &mut [u8],
    chart: &[u64],
    names: &[u8],
    calls: &mut [u64],
    text: &[u8],
    trace: &mut [u32],
) -> usize
    ensures { Performs (calls_of (calls_in (places_fit (length numbers.old) (length internal.old) (length external.old) (length clock.old)) calls.old) text.now (length trace.old)) (both_in numbers.old internal.old external.old clock.old) chart.now names.now calls.old trace.old (both_in numbers.new internal.new external.new clock.new) result calls.new trace.new }
{
    calls::perform(
        numbers, internal, external, clock, chart, names, calls, text, trace,
    )
}

// ---- reading a text

// How many numbers and bytes the tables have; the offset is that of the first fault.
#[repr(C)]
#[derive(Clone, Copy)]
pub struct ReadResult {
    pub answer: u32,
    pub offset: usize,
    pub cells: usize,
    pub bytes: usize,
}

// SCXML text into tables (R-1): 0 and the tables at the beginning of both places, or 12, 1 to 5 and both as they were. The work places are on the stack.
#[unsafe(no_mangle)]
pub extern "C" fn auttervil_raw3_read(
    text: &[u8],
    place: &mut [u64],
    name_place: &mut [u8],
) -> ReadResult
    ensures { read_outcome result place.new name_place.new ≡ call_of text.now place.old name_place.old }
{
    let read = read_text::read(text, place, name_place);
    let answer = read.answer;
    let offset = read.offset;
    let cells = read.cells;
    let bytes = read.bytes;
    ReadResult {
        answer: answer,
        offset: offset,
        cells: cells,
        bytes: bytes,
    }
}

// The same for a host with a small stack, which lends six work places: 27,756 numbers and 49,152 bytes for the tables, 24,434 numbers for ids, 16,388 for the spots that
// tags stand in, 2,913 each for the sources and the numbers of transitions. What they hold counts for nothing and is lost; work places of other lengths are answered by 199,
// and nothing is written, in them neither.
#[unsafe(no_mangle)]
pub extern "C" fn auttervil_raw3_read_with(
    text: &[u8],
    place: &mut [u64],
    name_place: &mut [u8],
    work: &mut [u64],
    name_work: &mut [u8],
    ids: &mut [u16],
    spots: &mut [u16],
    noted: &mut [u16],
    ranks: &mut [u16],
) -> ReadResult
    ensures { (read_outcome result place.new name_place.new ≡ read_with (work_fits (length work.old) (length name_work.old) (length ids.old) (length spots.old) (length noted.old) (length ranks.old)) text.now place.old name_place.old) × WorkKept (work_fits (length work.old) (length name_work.old) (length ids.old) (length spots.old) (length noted.old) (length ranks.old)) work.old name_work.old ids.old spots.old noted.old ranks.old work.new name_work.new ids.new spots.new noted.new ranks.new }
{
    let read = read_text::read_with(
        text, place, name_place, work, name_work, ids, spots, noted, ranks,
    );
    let answer = read.answer;
    let offset = read.offset;
    let cells = read.cells;
    let bytes = read.bytes;
    ReadResult {
        answer: answer,
        offset: offset,
        cells: cells,
        bytes: bytes,
    }
}

// The length of the text; with 13, that of a buffer that it would fit, if there is one.
#[repr(C)]
#[derive(Clone, Copy)]
pub struct WriteResult {
    pub answer: u32,
    pub length: usize,
}

// Tables into SCXML text (R-4): 0 and the text at the buffer's beginning, or 1 to 5, 13 and the buffer as it was. Bytes behind the text keep what they held.
#[unsafe(no_mangle)]
pub extern "C" fn auttervil_raw3_write(
    numbers: &[u64],
    names: &[u8],
    buffer: &mut [u8],
) -> WriteResult
    ensures { write_outcome result buffer.new ≡ write_of numbers.now names.now buffer.old }
{
    let written = write_text::write(numbers, names, buffer);
    let answer = written.answer;
    let length = written.length;
    WriteResult {
        answer: answer,
        length: length,
    }
}
