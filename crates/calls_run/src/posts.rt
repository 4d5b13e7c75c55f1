// Posts: one, one to each changed session, and one of each changed name.
use crate::{Lent, cells, show};
use lines::{behind_guard, least, put};
use session::{Posted, Session};
use std::io;

const ROOM: usize = 512;

// With what is lent of the places.
fn post(l: Lent, s: Session, place: &[u64], name_place: &[u8], name: &[u8]) -> Posted {
    let p = behind_guard(l.place, place.len());
    let q = behind_guard(l.name_place, name_place.len());
    let begin = p.begin;
    let end = p.end;
    let name_begin = q.begin;
    let name_end = q.end;
    s.post(&place[begin..end], &name_place[name_begin..name_end], name)
}

fn post_shown(
    rt: &impl Print,
    l: Lent,
    s: Session,
    place: &[u64],
    name_place: &[u8],
    name: &[u8],
) -> io::Result<Session> {
    let posted = post(l, s, place, name_place, name);
    let after = posted.session;
    let answer = posted.answer;
    let number = show::number_of(answer);
    lines::show(rt, b"post ")?;
    lines::show_number(rt, number)?;
    show::session(rt, after, number)?;
    Ok(after)
}

fn post_read(
    rt: &impl Print,
    rest: &[u8],
    l: Lent,
    s: Session,
    place: &[u64],
    name_place: &[u8],
    name: &mut [u8],
) -> io::Result<Session> {
    let n = least(lines::read_name(rest, name), name.len());
    post_shown(rt, l, s, place, name_place, &name[0..n])
}

pub fn post_line(
    rt: &impl Print,
    rest: &[u8],
    l: Lent,
    s: Session,
    place: &[u64],
    name_place: &[u8],
) -> io::Result<Session> {
    let mut name = [0u8; ROOM];
    post_read(rt, rest, l, s, place, name_place, &mut name)
}

// ---- answers one after the other

// How often the last answer came, and a sum of all sessions handed back. Before the first the count is 0.
#[derive(Clone, Copy)]
struct Seen {
    answer: u64,
    count: u64,
    sum: u64,
}

impl Seen {
    fn none() -> Seen {
        Seen {
            answer: 0,
            count: 0,
            sum: lines::FIRST_SUM,
        }
    }

    fn show(self, rt: &impl Print) -> io::Result<()> {
        if self.count == 0 {
            return Ok(());
        }
        put(rt, b' ')?;
        lines::show_number(rt, self.count)?;
        put(rt, b'*')?;
        lines::show_number(rt, self.answer)
    }

    fn with(self, rt: &impl Print, answer: u64, after: Session) -> io::Result<Seen> {
        let sum = cells::sum(self.sum, after);
        if answer == self.answer {
            return Ok(Seen {
                answer,
                count: std::num::wrapping_add_u64(self.count, 1),
                sum,
            });
        }
        self.show(rt)?;
        Ok(Seen {
            answer,
            count: 1,
            sum,
        })
    }

    fn end(self, rt: &impl Print) -> io::Result<()> {
        self.show(rt)?;
        lines::show_sum(rt, self.sum)?;
        put(rt, b'\n')
    }
}

// A line's number: of the way, or of the place.
fn begin(rt: &impl Print, number: usize) -> io::Result<Seen> {
    lines::show_number(rt, number as u64)?;
    put(rt, b':')?;
    Ok(Seen::none())
}

fn post_seen(
    rt: &impl Print,
    seen: Seen,
    l: Lent,
    s: Session,
    place: &[u64],
    name_place: &[u8],
    name: &[u8],
) -> io::Result<Seen> {
    let posted = post(l, s, place, name_place, name);
    let after = posted.session;
    let answer = posted.answer;
    seen.with(rt, show::number_of(answer), after)
}

// ---- each cell changed

fn changed(way: usize, at: usize, v: u64) -> u64 {
    if at < cells::INTERNAL {
        return lines::changed(way, v);
    }
    if at < cells::INTERNAL_COUNT {
        return lines::changed_byte(way, (v % 256) as u8) as u64;
    }
    lines::changed(way, v)
}

fn session_changed(s: Session, way: usize, at: usize) -> Session {
    cells::with_cell(s, at, changed(way, at, cells::cell(s, at)))
}

fn each_cell(
    rt: &impl Print,
    way: usize,
    l: Lent,
    s: Session,
    place: &[u64],
    name_place: &[u8],
    name: &[u8],
) -> io::Result<()> {
    let mut seen = begin(rt, way)?;
    for at in 0..cells::CELLS {
        seen = post_seen(
            rt,
            seen,
            l,
            session_changed(s, way, at),
            place,
            name_place,
            name,
        )?;
    }
    seen.end(rt)
}

fn each_way_of(
    rt: &impl Print,
    l: Lent,
    s: Session,
    place: &[u64],
    name_place: &[u8],
    name: &[u8],
) -> io::Result<()> {
    for way in 0..lines::WAYS {
        each_cell(rt, way, l, s, place, name_place, name)?;
    }
    Ok(())
}

fn each_way_read(
    rt: &impl Print,
    rest: &[u8],
    l: Lent,
    s: Session,
    place: &[u64],
    name_place: &[u8],
    name: &mut [u8],
) -> io::Result<()> {
    let n = least(lines::read_name(rest, name), name.len());
    each_way_of(rt, l, s, place, name_place, &name[0..n])
}

pub fn each_way(
    rt: &impl Print,
    rest: &[u8],
    l: Lent,
    s: Session,
    place: &[u64],
    name_place: &[u8],
) -> io::Result<()> {
    let mut name = [0u8; ROOM];
    each_way_read(rt, rest, l, s, place, name_place, &mut name)
}

// ---- each place of the name with every byte value

// The name, with another byte at a place.
fn post_changed(
    rt: &impl Print,
    seen: Seen,
    at: usize,
    v: u64,
    l: Lent,
    s: Session,
    place: &[u64],
    name_place: &[u8],
    name: &mut [u8],
) -> io::Result<Seen> {
    lines::put_byte(name, at, (v % 256) as u8);
    post_seen(rt, seen, l, s, place, name_place, name)
}

fn each_value_read(
    rt: &impl Print,
    rest: &[u8],
    at: usize,
    l: Lent,
    s: Session,
    place: &[u64],
    name_place: &[u8],
    name: &mut [u8],
) -> io::Result<()> {
    let n = lines::read_name(rest, name);
    let end = least(n, name.len());
    let mut seen = begin(rt, at)?;
    for v in 0..256u64 {
        seen = post_changed(rt, seen, at, v, l, s, place, name_place, &mut name[0..end])?;
    }
    seen.end(rt)
}

fn each_value(
    rt: &impl Print,
    rest: &[u8],
    at: usize,
    l: Lent,
    s: Session,
    place: &[u64],
    name_place: &[u8],
) -> io::Result<()> {
    let mut name = [0u8; ROOM];
    each_value_read(rt, rest, at, l, s, place, name_place, &mut name)
}

// The name is spelt without %, so that it is as long as what is left of the line.
pub fn each_place(
    rt: &impl Print,
    rest: &[u8],
    l: Lent,
    s: Session,
    place: &[u64],
    name_place: &[u8],
) -> io::Result<()> {
    for at in 0..rest.len() {
        each_value(rt, rest, at, l, s, place, name_place)?;
    }
    Ok(())
}
