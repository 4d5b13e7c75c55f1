// Marks written to the standard output.
use lines::put;
use std::io;

pub fn mark(rt: &impl Print, yes: bool) -> io::Result<()> {
    put(rt, if yes { b'1' } else { b'0' })
}
