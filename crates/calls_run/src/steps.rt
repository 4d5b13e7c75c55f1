// Starts and runs, with a trace between guards that is filled before each call; and clock calls, which write none.
use crate::{Held, Lent, records, show};
use lines::behind_guard;
use session::{Clocked, Ran, Started};
use std::io;

// Room for every trace of the lists, and guards.
const ROOM: usize = 2048;

// ---- the trace

fn is_kept(n: u32, at: usize, begin: usize, end: usize) -> bool {
    if begin <= at && at < end {
        return true;
    }
    n == lines::unwritten(at)
}

// Nothing but the part from begin to end was written.
fn others_kept(trace: &[u32], begin: usize, end: usize) -> bool {
    for (i, n) in trace.iter().enumerate() {
        if !is_kept(*n, i, begin, end) {
            return false;
        }
    }
    true
}

fn entry(rt: &impl Print, n: u32) -> io::Result<()> {
    show::blank_number(rt, n as u64)
}

fn entries(rt: &impl Print, trace: &[u32], count: usize) -> io::Result<()> {
    let p = behind_guard(count, trace.len());
    let end = p.end;
    for at in p.begin..end {
        entry(rt, trace[at])?;
    }
    Ok(())
}

fn written(rt: &impl Print, trace: &[u32], count: usize) -> io::Result<()> {
    lines::show(rt, b", ")?;
    lines::show_number(rt, count as u64)?;
    lines::show(rt, b" entries")?;
    entries(rt, trace, count)?;
    let p = behind_guard(count, trace.len());
    let begin = p.begin;
    let end = p.end;
    if others_kept(trace, begin, end) {
        lines::show(rt, b", the others kept")?;
    }
    Ok(())
}

// ---- starts

fn start(
    l: Lent,
    h: Held,
    room: usize,
    place: &[u64],
    name_place: &[u8],
    trace: &mut [u32],
) -> Started {
    let p = behind_guard(l.place, place.len());
    let q = behind_guard(l.name_place, name_place.len());
    let r = behind_guard(room, trace.len());
    let begin = p.begin;
    let end = p.end;
    let name_begin = q.begin;
    let name_end = q.end;
    let trace_begin = r.begin;
    let trace_end = r.end;
    let s = h.session;
    let k = h.clock;
    s.start(
        k,
        &place[begin..end],
        &name_place[name_begin..name_end],
        &mut trace[trace_begin..trace_end],
    )
}

fn start_shown(
    rt: &impl Print,
    rest: &[u8],
    l: Lent,
    h: Held,
    place: &[u64],
    name_place: &[u8],
    trace: &mut [u32],
) -> io::Result<Held> {
    let room = lines::read_two(rest);
    lines::fill_trace(trace);
    let started = start(l, h, lines::size(room.first), place, name_place, trace);
    let session = started.session;
    let clock = started.clock;
    let answer = started.answer;
    let number = show::number_of(answer);
    lines::show(rt, b"start ")?;
    lines::show_number(rt, number)?;
    written(rt, trace, started.count)?;
    records::show_clock(rt, clock, number)?;
    show::session(rt, session, number)?;
    Ok(Held { session, clock })
}

pub fn start_line(
    rt: &impl Print,
    rest: &[u8],
    l: Lent,
    h: Held,
    place: &[u64],
    name_place: &[u8],
) -> io::Result<Held> {
    let mut trace = [0u32; ROOM];
    start_shown(rt, rest, l, h, place, name_place, &mut trace)
}

// ---- runs

fn run(
    l: Lent,
    h: Held,
    rounds: u32,
    room: usize,
    place: &[u64],
    name_place: &[u8],
    trace: &mut [u32],
) -> Ran {
    let p = behind_guard(l.place, place.len());
    let q = behind_guard(l.name_place, name_place.len());
    let r = behind_guard(room, trace.len());
    let begin = p.begin;
    let end = p.end;
    let name_begin = q.begin;
    let name_end = q.end;
    let trace_begin = r.begin;
    let trace_end = r.end;
    let s = h.session;
    let k = h.clock;
    s.run(
        k,
        &place[begin..end],
        &name_place[name_begin..name_end],
        rounds,
        &mut trace[trace_begin..trace_end],
    )
}

fn rounds_of(v: u64) -> u32 {
    (v % 4294967296) as u32
}

fn run_shown(
    rt: &impl Print,
    rest: &[u8],
    l: Lent,
    h: Held,
    place: &[u64],
    name_place: &[u8],
    trace: &mut [u32],
) -> io::Result<Held> {
    let asked = lines::read_two(rest);
    lines::fill_trace(trace);
    let ran = run(
        l,
        h,
        rounds_of(asked.first),
        lines::size(asked.next),
        place,
        name_place,
        trace,
    );
    let session = ran.session;
    let clock = ran.clock;
    let status = ran.status;
    let number = answers::status_number(status) as u64;
    lines::show(rt, b"run ")?;
    lines::show_number(rt, number)?;
    lines::show(rt, b", ")?;
    lines::show_number(rt, ran.rounds as u64)?;
    lines::show(rt, b" rounds")?;
    written(rt, trace, ran.count)?;
    records::show_clock(rt, clock, number)?;
    show::session(rt, session, number)?;
    Ok(Held { session, clock })
}

pub fn run_line(
    rt: &impl Print,
    rest: &[u8],
    l: Lent,
    h: Held,
    place: &[u64],
    name_place: &[u8],
) -> io::Result<Held> {
    let mut trace = [0u32; ROOM];
    run_shown(rt, rest, l, h, place, name_place, &mut trace)
}

// ---- clock calls

fn clock(l: Lent, h: Held, ticks: u64, place: &[u64], name_place: &[u8]) -> Clocked {
    let p = behind_guard(l.place, place.len());
    let q = behind_guard(l.name_place, name_place.len());
    let begin = p.begin;
    let end = p.end;
    let name_begin = q.begin;
    let name_end = q.end;
    let s = h.session;
    let k = h.clock;
    s.clock(
        k,
        &place[begin..end],
        &name_place[name_begin..name_end],
        ticks,
    )
}

pub fn clock_line(
    rt: &impl Print,
    rest: &[u8],
    l: Lent,
    h: Held,
    place: &[u64],
    name_place: &[u8],
) -> io::Result<Held> {
    let asked = lines::read_two(rest);
    let clocked = clock(l, h, asked.first, place, name_place);
    let session = clocked.session;
    let clock = clocked.clock;
    let answer = clocked.answer;
    let number = show::number_of(answer);
    lines::show(rt, b"clock ")?;
    lines::show_number(rt, number)?;
    records::show_clock(rt, clock, number)?;
    show::session(rt, session, number)?;
    Ok(Held { session, clock })
}
