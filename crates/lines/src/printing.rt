// Bytes and numbers written to the standard output, whole, or the error of a write that failed.
use std::io;

pub fn put(rt: &impl Print, b: u8) -> io::Result<()> {
    rt.write_all(&[b])
}

pub fn show(rt: &impl Print, text: &[u8]) -> io::Result<()> {
    rt.write_all(text)
}

pub fn show_number(rt: &impl Print, n: u64) -> io::Result<()> {
    print!(rt; "{n}")
}

pub fn show_answer(rt: &impl Print, n: u32) -> io::Result<()> {
    show_number(rt, n as u64)
}

pub fn show_sum(rt: &impl Print, sum: u64) -> io::Result<()> {
    print!(rt; " {sum:016x}")
}
