// Names in slots, with stray bytes too.
use crate::printing::mark;
use crate::single::{changed, judge, made, with_done_name, with_name};
use lines::put;
use std::io;

// A zero byte is shown as "!".
pub fn show(rt: &impl Print, bytes: &[u8]) -> io::Result<()> {
    for b in bytes {
        put(rt, if *b == 0 { b'!' } else { *b })?;
    }
    put(rt, b'\n')
}

// The slot, the number of its bytes before the first zero, these bytes, and the marks of the slot as a whole.
fn show_slot(rt: &impl Print, slot: &[u8]) -> io::Result<()> {
    show(rt, slot)?;
    let count = names::name_len(slot);
    println!(rt; "{count}")?;
    show(rt, names::name_of(slot))?;
    mark(rt, names::zeros_after(slot))?;
    mark(rt, names::slot_fits(slot))?;
    put(rt, b'\n')
}

// The slot of the name, the slot of its done name, and both in a place that is lent in part.
fn show_slots(rt: &impl Print, unit: &[u8], n: usize) -> io::Result<()> {
    let bytes = made(unit, n, b"");
    let name = names::name_of(&bytes);
    show_slot(rt, &names::pad(name))?;
    show_slot(rt, &names::done_name(name))?;
    show(rt, &with_done_name(name))?;
    show(rt, &with_name(name))
}

pub fn each_slot(rt: &impl Print, unit: &[u8]) -> io::Result<()> {
    for n in 0..71 {
        show_slots(rt, unit, n)?;
    }
    Ok(())
}

fn mark_stray(rt: &impl Print, test: usize, name: &[u8], place: usize, b: u8) -> io::Result<()> {
    mark(rt, judge(test, &changed(name, place, b)))
}

fn each_stray(rt: &impl Print, test: usize, name: &[u8], b: u8) -> io::Result<()> {
    for place in 0..64 {
        mark_stray(rt, test, name, place, b)?;
    }
    put(rt, b'\n')
}

// `zeros_after`, `slot_fits` and `is_blank`.
fn show_stray(rt: &impl Print, name: &[u8], b: u8) -> io::Result<()> {
    each_stray(rt, 3, name, b)?;
    each_stray(rt, 4, name, b)?;
    each_stray(rt, 5, name, b)
}

// A zero, and bytes that a name may or may not hold: for each a line of 64 marks a test.
pub fn show_strays(rt: &impl Print, name: &[u8]) -> io::Result<()> {
    show_stray(rt, name, 0)?;
    show_stray(rt, name, 1)?;
    show_stray(rt, name, b'.')?;
    show_stray(rt, name, b'x')?;
    show_stray(rt, name, 255)
}
