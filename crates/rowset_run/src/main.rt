// Reads cases from standard input, a line of 144 bytes each, and writes what each function of `rowset` gives for it.
// A line: the words of two sets, 16 hexadecimal digits each; a row, 2 digits; a number, 4 digits.
#![tactic(auto)]

ghost use Rattle.std.specs.Prelude.{◌≡◌};
ghost use Rattle.definition.specs.Rows.{fold, backwards};
ghost use Rattle.rowset.specs.Member.{rows_of};
ghost use Rattle.rowset_run.specs.Count.{more};

use numbers::Row;
use rowset::RowSet;
use std::io;
use std::io::{ErrorKind, Read};

fn digit(b: u8) -> u64 {
    match b {
        b'0'..=b'9' => u64::from(b - b'0'),
        b'a'..=b'f' => u64::from(b - b'a') + 10,
        _ => 0,
    }
}

fn number_at(line: &[u8], at: usize, digits: usize) -> u64 {
    let mut v: u64 = 0;
    for b in line[at.min(line.len())..].iter().take(digits) {
        v = v << 4 | digit(*b);
    }
    v
}

fn set_at(line: &[u8], at: u8) -> RowSet {
    let i = usize::from(at);
    RowSet {
        w0: number_at(line, i, 16),
        w1: number_at(line, i + 17, 16),
        w2: number_at(line, i + 34, 16),
        w3: number_at(line, i + 51, 16),
    }
}

// How many rows s has, counted upward.
fn count_up(s: RowSet) -> u64
    ensures { result ≡ fold more 0 (rows_of s) }
{
    let mut n: u64 = 0;
    let mut k: u16 = 0;
    loop {
        match s.next_from(k) {
            Some(r) => {
                n += 1;
                k = r.0 as u16 + 1;
            }
            None => {
                return n;
            }
        }
    }
}

// The same, counted downward.
fn count_down(s: RowSet) -> u64
    ensures { result ≡ fold more 0 (backwards (rows_of s)) }
{
    let mut n: u64 = 0;
    let mut k: u16 = 256;
    loop {
        match s.prev_below(k) {
            Some(r) => {
                n += 1;
                k = r.0 as u16;
            }
            None => {
                return n;
            }
        }
    }
}

fn show_test(rt: &impl Print, b: bool) -> io::Result<()> {
    rt.write_all(if b { b"1" } else { b"0" })
}

fn show_found(rt: &impl Print, f: Option<Row>) -> io::Result<()> {
    match f {
        Some(r) => show_count(rt, u64::from(r.0)),
        None => rt.write_all(b" -"),
    }
}

fn show_count(rt: &impl Print, n: u64) -> io::Result<()> {
    print!(rt; " {n}")
}

fn show_set(rt: &impl Print, s: RowSet) -> io::Result<()> {
    let w0 = s.w0;
    let w1 = s.w1;
    let w2 = s.w2;
    let w3 = s.w3;
    print!(rt; " {w0:x}.{w1:x}.{w2:x}.{w3:x}")
}

fn show_tests(rt: &impl Print, a: RowSet, b: RowSet, r: Row) -> io::Result<()> {
    show_test(rt, a.has(r))?;
    show_test(rt, a.meets(b))?;
    show_test(rt, a.subset(b))?;
    show_test(rt, a.same(b))?;
    show_test(rt, a.is_empty())?;
    show_test(rt, a.is_single())
}

fn show_searches(rt: &impl Print, a: RowSet, k: u16) -> io::Result<()> {
    show_found(rt, a.first())?;
    show_found(rt, a.next_from(k))?;
    show_found(rt, a.prev_below(k))?;
    show_count(rt, count_up(a))?;
    show_count(rt, count_down(a))
}

fn show_sets(rt: &impl Print, a: RowSet, b: RowSet, r: Row, k: u16) -> io::Result<()> {
    show_set(rt, RowSet::empty())?;
    show_set(rt, RowSet::single(r))?;
    show_set(rt, RowSet::below(k))?;
    show_set(rt, a.with(r))?;
    show_set(rt, a.without(r))?;
    show_set(rt, a.union(b))?;
    show_set(rt, a.intersection(b))?;
    show_set(rt, a.minus(b))
}

fn show_case(rt: &impl Print, line: &[u8]) -> io::Result<()> {
    let a = set_at(line, 0);
    let b = set_at(line, 68);
    let r = Row((number_at(line, 136, 2) % 256) as u8);
    let k = (number_at(line, 139, 4) % 65536) as u16;
    show_tests(rt, a, b, r)?;
    show_searches(rt, a, k)?;
    show_sets(rt, a, b, r, k)?;
    rt.write_all(b"\n")
}

// Reads a line and shows its case, and answers whether there was one.
fn next_case(rt: &impl Print, input: &mut impl Read) -> io::Result<bool> {
    let mut line = [0u8; 144];
    match input.read_exact(&mut line) {
        Ok(()) => {
            show_case(rt, &line)?;
            Ok(true)
        }
        Err(e) => {
            if e.kind() == ErrorKind::UnexpectedEof {
                return Ok(false);
            }
            Err(e)
        }
    }
}

// A loop ends by a count, since nothing says that the input does.
fn main(rt: HostRuntime) -> io::Result<()> {
    let mut input = rt.reader();
    for _ in 0..100000u64 {
        if !next_case(&rt, &mut input)? {
            return Ok(());
        }
    }
    Ok(())
}
