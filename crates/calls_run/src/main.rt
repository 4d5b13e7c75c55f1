// Compiles the charts of standard input, does calls on a session and its clock record and prints what each hands back. A line of the input is a letter, a blank and what belongs to it:
//   c TEXT           a new chart: the text is printed, and a colon
//   n NUMBERS        its numbers, with a blank between them; 8*0 stands for eight zeros
//   s SLOTS          its name slots, with a blank between them; % and two hexadecimal digits stand for a byte
//   p A B            compiled into places of A numbers and B bytes, of which so many are then lent: prints the answer
//   l A B            from here on the first A numbers and B bytes of the places are lent
//   k CELL NUMBER    a number of the compiled chart is set
//   b PLACE NUMBER   a byte of its names is set
//   z                the session is one of zeros, and the clock record
//   f CELL NUMBER    a cell of the session is set; its cells are numbered in the order of its fields
//   i SLOTS          the internal queue has these slots, and their count
//   x SLOTS          the same for the external queue
//   r NUMBER         every cell of the session is made from the number
//   h PLACE NUMBER   a number of the clock record is set: its ticks, its count, its due times
//   e SLOTS          its events have these slots
//   w SLOTS          its send ids have these slots
//   o NAME           a post: prints the answer and the session
//   d NAME           each cell of the session changed in each way, and posted to: a line of answers for each way, and a sum of the sessions handed back
//   v NAME           a post of the name with every byte value at each place: the same line for each place
//   a CELL COUNT     so many cells of the session are printed
//   t ROOM           a start: prints the answer, the entries of the trace, the clock record and the session
//   u ROUNDS ROOM    a run: prints the status, the rounds, the entries, the clock record and the session
//   y TICKS          a clock call: prints the answer, the clock record and the session
#![tactic(auto)]

mod cells;
mod posts;
mod records;
mod show;
mod steps;

use definition::Answer;
use lines::{behind_guard, least, read_whole, size};
use session::{Clock, Session};
use std::io;
use std::io::Read;

// The most bytes that are read.
const TEXT: usize = 524288;

// How much of each buffer is lent.
#[derive(Clone, Copy)]
pub struct Lent {
    pub numbers: usize,
    pub names: usize,
    pub place: usize,
    pub name_place: usize,
}

// A session and its clock record.
#[derive(Drop)]
pub struct Held {
    pub session: Session,
    pub clock: Clock,
}

// What a line finds and leaves: how much is lent, the session and its clock record.
#[derive(Drop)]
struct Scene {
    lent: Lent,
    held: Held,
}

// ---- lines of the chart

impl Lent {
    fn with_numbers(self, count: usize) -> Lent {
        Lent {
            numbers: count,
            names: self.names,
            place: self.place,
            name_place: self.name_place,
        }
    }

    fn with_names(self, count: usize) -> Lent {
        Lent {
            numbers: self.numbers,
            names: count,
            place: self.place,
            name_place: self.name_place,
        }
    }

    // The lengths of the places, which the line has.
    fn with_places(self, line: &[u8]) -> Lent {
        let counts = lines::read_two(line);
        Lent {
            numbers: self.numbers,
            names: self.names,
            place: size(counts.first),
            name_place: size(counts.next),
        }
    }
}

fn compile(
    l: Lent,
    numbers: &[u64],
    names: &[u8],
    place: &mut [u64],
    name_place: &mut [u8],
) -> Answer {
    lines::fill_words(place);
    lines::fill_bytes(name_place);
    let n = least(l.numbers, numbers.len());
    let m = least(l.names, names.len());
    let p = behind_guard(l.place, place.len());
    let q = behind_guard(l.name_place, name_place.len());
    let begin = p.begin;
    let end = p.end;
    let name_begin = q.begin;
    let name_end = q.end;
    compiler::compile(
        &numbers[0..n],
        &names[0..m],
        &mut place[begin..end],
        &mut name_place[name_begin..name_end],
    )
}

fn compile_shown(
    rt: &impl Print,
    l: Lent,
    numbers: &[u64],
    names: &[u8],
    place: &mut [u64],
    name_place: &mut [u8],
) -> io::Result<()> {
    show::answer(rt, compile(l, numbers, names, place, name_place))?;
    lines::put(rt, b'\n')
}

fn set_number(rest: &[u8], l: Lent, place: &mut [u64]) {
    let set = lines::read_two(rest);
    let p = behind_guard(l.place, place.len());
    lines::put_word(
        place,
        std::num::wrapping_add_usize(p.begin, size(set.first)),
        set.next,
    );
}

fn set_byte(rest: &[u8], l: Lent, name_place: &mut [u8]) {
    let set = lines::read_two(rest);
    let q = behind_guard(l.name_place, name_place.len());
    lines::put_byte(
        name_place,
        std::num::wrapping_add_usize(q.begin, size(set.first)),
        (set.next % 256) as u8,
    );
}

fn show_title(rt: &impl Print, text: &[u8]) -> io::Result<()> {
    lines::show(rt, text)?;
    lines::show(rt, b": ")
}

fn chart_line(
    rt: &impl Print,
    case: u8,
    rest: &[u8],
    l: Lent,
    numbers: &mut [u64],
    names: &mut [u8],
    place: &mut [u64],
    name_place: &mut [u8],
) -> io::Result<Lent> {
    if case == b'c' {
        show_title(rt, rest)?;
        return Ok(l);
    }
    if case == b'n' {
        return Ok(l.with_numbers(lines::read_numbers(rest, numbers)));
    }
    if case == b's' {
        return Ok(l.with_names(lines::read_slots(rest, names)));
    }
    if case == b'p' {
        let lent = l.with_places(rest);
        compile_shown(rt, lent, numbers, names, place, name_place)?;
        return Ok(lent);
    }
    if case == b'l' {
        return Ok(l.with_places(rest));
    }
    if case == b'k' {
        set_number(rest, l, place);
        return Ok(l);
    }
    set_byte(rest, l, name_place);
    Ok(l)
}

// ---- lines of the session

fn session_line(case: u8, rest: &[u8], s: Session) -> Session {
    if case == b'f' {
        let set = lines::read_two(rest);
        return cells::with_cell(s, size(set.first), set.next);
    }
    if case == b'i' {
        return cells::with_internal(s, rest);
    }
    if case == b'x' {
        return cells::with_external(s, rest);
    }
    let from = lines::read_two(rest);
    cells::made(s, from.first)
}

// ---- lines of the clock record

fn clock_line(case: u8, rest: &[u8], k: Clock) -> Clock {
    if case == b'h' {
        let set = lines::read_two(rest);
        return records::with_number(k, size(set.first), set.next);
    }
    if case == b'e' {
        return records::with_events(k, rest);
    }
    records::with_ids(k, rest)
}

// ---- calls

// Those that leave the clock record as it is.
fn session_call(
    rt: &impl Print,
    case: u8,
    rest: &[u8],
    l: Lent,
    s: Session,
    place: &[u64],
    name_place: &[u8],
) -> io::Result<Session> {
    if case == b'o' {
        return posts::post_line(rt, rest, l, s, place, name_place);
    }
    if case == b'd' {
        posts::each_way(rt, rest, l, s, place, name_place)?;
        return Ok(s);
    }
    if case == b'v' {
        posts::each_place(rt, rest, l, s, place, name_place)?;
        return Ok(s);
    }
    show::cells_line(rt, rest, s)?;
    Ok(s)
}

fn call_line(
    rt: &impl Print,
    case: u8,
    rest: &[u8],
    l: Lent,
    h: Held,
    place: &[u64],
    name_place: &[u8],
) -> io::Result<Held> {
    if case == b't' {
        return steps::start_line(rt, rest, l, h, place, name_place);
    }
    if case == b'u' {
        return steps::run_line(rt, rest, l, h, place, name_place);
    }
    if case == b'y' {
        return steps::clock_line(rt, rest, l, h, place, name_place);
    }
    let s = h.session;
    let k = h.clock;
    Ok(Held {
        session: session_call(rt, case, rest, l, s, place, name_place)?,
        clock: k,
    })
}

// ---- all lines

// Of what a line speaks.
#[derive(Clone, Copy)]
enum Line {
    OfChart,
    OfBoth,
    OfSession,
    OfClock,
    OfCall,
}

fn kind_of(case: u8) -> Line {
    match case {
        b'c' | b'n' | b's' | b'p' | b'l' | b'k' | b'b' => Line::OfChart,
        b'z' => Line::OfBoth,
        b'f' | b'i' | b'x' | b'r' => Line::OfSession,
        b'h' | b'e' | b'w' => Line::OfClock,
        _ => Line::OfCall,
    }
}

fn held_line(case: u8, rest: &[u8], h: Held) -> Held {
    let s = h.session;
    let k = h.clock;
    match kind_of(case) {
        Line::OfSession => Held {
            session: session_line(case, rest, s),
            clock: k,
        },
        Line::OfClock => Held {
            session: s,
            clock: clock_line(case, rest, k),
        },
        _ => zeros(),
    }
}

fn run_line(
    rt: &impl Print,
    line: &[u8],
    scene: Scene,
    numbers: &mut [u64],
    names: &mut [u8],
    place: &mut [u64],
    name_place: &mut [u8],
) -> io::Result<Scene> {
    if line.len() < 2 {
        return Ok(scene);
    }
    let case = line[0];
    let rest = &line[2..];
    let lent = scene.lent;
    let held = scene.held;
    match kind_of(case) {
        Line::OfChart => Ok(Scene {
            lent: chart_line(rt, case, rest, lent, numbers, names, place, name_place)?,
            held,
        }),
        Line::OfCall => Ok(Scene {
            lent,
            held: call_line(rt, case, rest, lent, held, place, name_place)?,
        }),
        _ => Ok(Scene {
            lent,
            held: held_line(case, rest, held),
        }),
    }
}

// A session and a clock record of zeros.
fn zeros() -> Held {
    Held {
        session: Session::ended(),
        clock: records::zeros(),
    }
}

// At first nothing is lent.
fn first_scene() -> Scene {
    Scene {
        lent: Lent {
            numbers: 0,
            names: 0,
            place: 0,
            name_place: 0,
        },
        held: zeros(),
    }
}

fn run_all(
    rt: &impl Print,
    text: &[u8],
    first: Scene,
    numbers: &mut [u64],
    names: &mut [u8],
    place: &mut [u64],
    name_place: &mut [u8],
) -> io::Result<()> {
    let mut scene = first;
    for line in text.split(|b| *b == b'\n') {
        scene = run_line(rt, line, scene, numbers, names, place, name_place)?;
    }
    Ok(())
}

// The text is read into the first of the lent places.
fn run_read<const N: usize>(
    rt: &impl Print,
    input: &mut impl Read,
    text: &mut [u8; N],
    numbers: &mut [u64],
    names: &mut [u8],
    place: &mut [u64],
    name_place: &mut [u8],
) -> io::Result<()> {
    let len = read_whole(input, text)?;
    run_all(
        rt,
        &text[..len],
        first_scene(),
        numbers,
        names,
        place,
        name_place,
    )
}

fn main(rt: HostRuntime) -> io::Result<()> {
    let mut text = [0u8; TEXT];
    let mut numbers = [0u64; lines::NUMBERS];
    let mut names = [0u8; lines::NAMES];
    let mut place = [0u64; lines::PLACE];
    let mut name_place = [0u8; lines::NAMES];
    run_read(
        &rt,
        &mut rt.reader(),
        &mut text,
        &mut numbers,
        &mut names,
        &mut place,
        &mut name_place,
    )
}
