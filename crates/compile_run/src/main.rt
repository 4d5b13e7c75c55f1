// Compiles the charts of standard input, damages what was compiled and prints every answer. A line of the input is a letter, a blank and what belongs to it:
//   c TEXT       a new chart: the text is printed, and a colon
//   n NUMBERS    its numbers, with a blank between them; 8*0 stands for eight zeros
//   s SLOTS      its name slots, with a blank between them; % and two hexadecimal digits stand for a byte
//   e BYTES      so many bytes of its names are lent, where that is not a whole number of slots
//   p A B        compiled into places of A numbers and B bytes: prints the answer, that of the check, and a sum of each buffer that holds a place
//   k A B        the check's answer for the first A numbers and B bytes of the places
//   d            each number of the compiled chart changed in each way, and checked: a line of answers for each way
//   b            the same for each byte of its names
//   m            each number of the chart changed in each way, and compiled: a line of answers for each way, and a sum of what all of them left in the buffers
#![tactic(auto)]

use lines::{
    behind_guard, least, put, read_numbers, read_whole, show_answer, show_sum, sum_bytes, sum_words,
};
use std::io;
use std::io::Read;

// The most bytes that are read.
const TEXT: usize = 524288;

// How much of each buffer is lent.
#[derive(Clone, Copy)]
struct Lent {
    numbers: usize,
    names: usize,
    place: usize,
    name_place: usize,
}

// ---- compiling and checking

fn compile(
    l: Lent,
    numbers: &[u64],
    names: &[u8],
    place: &mut [u64],
    name_place: &mut [u8],
) -> u32 {
    let n = least(l.numbers, numbers.len());
    let m = least(l.names, names.len());
    let p = behind_guard(l.place, place.len());
    let q = behind_guard(l.name_place, name_place.len());
    let begin = p.begin;
    let end = p.end;
    let name_begin = q.begin;
    let name_end = q.end;
    let answer = compiler::compile(
        &numbers[0..n],
        &names[0..m],
        &mut place[begin..end],
        &mut name_place[name_begin..name_end],
    );
    answers::answer_number(answer)
}

fn check(l: Lent, place: &[u64], name_place: &[u8]) -> u32 {
    let p = behind_guard(l.place, place.len());
    let q = behind_guard(l.name_place, name_place.len());
    let begin = p.begin;
    let end = p.end;
    let name_begin = q.begin;
    let name_end = q.end;
    if compiler::check(&place[begin..end], &name_place[name_begin..name_end]) {
        0
    } else {
        8
    }
}

fn compile_fresh(
    rt: &impl Print,
    l: Lent,
    numbers: &[u64],
    names: &[u8],
    place: &mut [u64],
    name_place: &mut [u8],
) -> io::Result<()> {
    lines::fill_words(place);
    lines::fill_bytes(name_place);
    show_answer(rt, compile(l, numbers, names, place, name_place))?;
    put(rt, b' ')?;
    show_answer(rt, check(l, place, name_place))?;
    show_sum(rt, sum_words(lines::FIRST_SUM, place))?;
    show_sum(rt, sum_bytes(lines::FIRST_SUM, name_place))?;
    put(rt, b'\n')
}

fn check_part(rt: &impl Print, l: Lent, place: &[u64], name_place: &[u8]) -> io::Result<()> {
    show_answer(rt, check(l, place, name_place))?;
    put(rt, b'\n')
}

// ---- damage

fn check_changed(
    rt: &impl Print,
    way: usize,
    at: usize,
    l: Lent,
    place: &mut [u64],
    name_place: &[u8],
) -> io::Result<()> {
    if place.len() <= at {
        return Ok(());
    }
    let old = place[at];
    place[at] = lines::changed(way, old);
    let answer = check(l, place, name_place);
    place[at] = old;
    show_answer(rt, answer)
}

fn check_each_number(
    rt: &impl Print,
    way: usize,
    l: Lent,
    place: &mut [u64],
    name_place: &[u8],
) -> io::Result<()> {
    let p = behind_guard(l.place, place.len());
    let end = p.end;
    for at in p.begin..end {
        check_changed(rt, way, at, l, place, name_place)?;
    }
    put(rt, b'\n')
}

fn check_changed_byte(
    rt: &impl Print,
    way: usize,
    at: usize,
    l: Lent,
    place: &[u64],
    name_place: &mut [u8],
) -> io::Result<()> {
    if name_place.len() <= at {
        return Ok(());
    }
    let old = name_place[at];
    name_place[at] = lines::changed_byte(way, old);
    let answer = check(l, place, name_place);
    name_place[at] = old;
    show_answer(rt, answer)
}

fn check_each_byte(
    rt: &impl Print,
    way: usize,
    l: Lent,
    place: &[u64],
    name_place: &mut [u8],
) -> io::Result<()> {
    let p = behind_guard(l.name_place, name_place.len());
    let end = p.end;
    for at in p.begin..end {
        check_changed_byte(rt, way, at, l, place, name_place)?;
    }
    put(rt, b'\n')
}

fn compile_changed(
    rt: &impl Print,
    way: usize,
    at: usize,
    l: Lent,
    numbers: &mut [u64],
    names: &[u8],
    place: &mut [u64],
    name_place: &mut [u8],
) -> io::Result<()> {
    if numbers.len() <= at {
        return Ok(());
    }
    let old = numbers[at];
    numbers[at] = lines::changed(way, old);
    let answer = compile(l, numbers, names, place, name_place);
    numbers[at] = old;
    show_answer(rt, answer)
}

fn compile_each(
    rt: &impl Print,
    way: usize,
    l: Lent,
    numbers: &mut [u64],
    names: &[u8],
    place: &mut [u64],
    name_place: &mut [u8],
) -> io::Result<()> {
    let count = l.numbers;
    let mut sum = lines::FIRST_SUM;
    for at in 0..count {
        compile_changed(rt, way, at, l, numbers, names, place, name_place)?;
        sum = sum_bytes(sum_words(sum, place), name_place);
    }
    show_sum(rt, sum)?;
    put(rt, b'\n')
}

fn damage_in(
    rt: &impl Print,
    case: u8,
    way: usize,
    l: Lent,
    numbers: &mut [u64],
    names: &[u8],
    place: &mut [u64],
    name_place: &mut [u8],
) -> io::Result<()> {
    match case {
        b'd' => check_each_number(rt, way, l, place, name_place),
        b'b' => check_each_byte(rt, way, l, place, name_place),
        _ => compile_each(rt, way, l, numbers, names, place, name_place),
    }
}

fn damage(
    rt: &impl Print,
    case: u8,
    l: Lent,
    numbers: &mut [u64],
    names: &[u8],
    place: &mut [u64],
    name_place: &mut [u8],
) -> io::Result<()> {
    for way in 0..lines::WAYS {
        damage_in(rt, case, way, l, numbers, names, place, name_place)?;
    }
    Ok(())
}

// ---- lines

impl Lent {
    fn with_numbers(self, count: usize) -> Lent {
        Lent {
            numbers: count,
            names: self.names,
            place: self.place,
            name_place: self.name_place,
        }
    }

    fn with_names(self, count: usize) -> Lent {
        Lent {
            numbers: self.numbers,
            names: count,
            place: self.place,
            name_place: self.name_place,
        }
    }

    // The lengths of the places, which the line has.
    fn with_places(self, line: &[u8]) -> Lent {
        let counts = lines::read_two(line);
        Lent {
            numbers: self.numbers,
            names: self.names,
            place: lines::size(counts.first),
            name_place: lines::size(counts.next),
        }
    }
}

fn one_size(line: &[u8]) -> usize {
    let counts = lines::read_two(line);
    lines::size(counts.first)
}

fn show_text(rt: &impl Print, text: &[u8]) -> io::Result<()> {
    lines::show(rt, text)?;
    lines::show(rt, b": ")
}

fn run_case(
    rt: &impl Print,
    case: u8,
    rest: &[u8],
    l: Lent,
    numbers: &mut [u64],
    names: &mut [u8],
    place: &mut [u64],
    name_place: &mut [u8],
) -> io::Result<Lent> {
    if case == b'c' {
        show_text(rt, rest)?;
        return Ok(l);
    }
    if case == b'n' {
        return Ok(l.with_numbers(read_numbers(rest, numbers)));
    }
    if case == b's' {
        return Ok(l.with_names(lines::read_slots(rest, names)));
    }
    if case == b'e' {
        return Ok(l.with_names(one_size(rest)));
    }
    if case == b'p' {
        let lent = l.with_places(rest);
        compile_fresh(rt, lent, numbers, names, place, name_place)?;
        return Ok(lent);
    }
    if case == b'k' {
        check_part(rt, l.with_places(rest), place, name_place)?;
        return Ok(l);
    }
    damage(rt, case, l, numbers, names, place, name_place)?;
    Ok(l)
}

fn run_line(
    rt: &impl Print,
    line: &[u8],
    l: Lent,
    numbers: &mut [u64],
    names: &mut [u8],
    place: &mut [u64],
    name_place: &mut [u8],
) -> io::Result<Lent> {
    if line.len() < 2 {
        return Ok(l);
    }
    run_case(
        rt,
        line[0],
        &line[2..],
        l,
        numbers,
        names,
        place,
        name_place,
    )
}

fn run_all(
    rt: &impl Print,
    text: &[u8],
    numbers: &mut [u64],
    names: &mut [u8],
    place: &mut [u64],
    name_place: &mut [u8],
) -> io::Result<()> {
    let mut l = Lent {
        numbers: 0,
        names: 0,
        place: 0,
        name_place: 0,
    };
    for line in text.split(|b| *b == b'\n') {
        l = run_line(rt, line, l, numbers, names, place, name_place)?;
    }
    Ok(())
}

// The text is read into the first of the lent places.
fn run_read<const N: usize>(
    rt: &impl Print,
    input: &mut impl Read,
    text: &mut [u8; N],
    numbers: &mut [u64],
    names: &mut [u8],
    place: &mut [u64],
    name_place: &mut [u8],
) -> io::Result<()> {
    let len = read_whole(input, text)?;
    run_all(rt, &text[..len], numbers, names, place, name_place)
}

fn main(rt: HostRuntime) -> io::Result<()> {
    let mut text = [0u8; TEXT];
    let mut numbers = [0u64; lines::NUMBERS];
    let mut names = [0u8; lines::NAMES];
    let mut place = [0u64; lines::PLACE];
    let mut name_place = [0u8; lines::NAMES];
    run_read(
        &rt,
        &mut rt.reader(),
        &mut text,
        &mut numbers,
        &mut names,
        &mut place,
        &mut name_place,
    )
}
