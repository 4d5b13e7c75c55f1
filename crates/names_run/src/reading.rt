// The words of a line.
ghost use Rattle.std.specs.Prelude.{◌≤◌, length};

// The place of the first such byte, or the length.
pub fn find(s: &[u8], b: u8) -> usize
    ensures { result ≤ length s.now }
{
    s.iter().position(|x| *x == b).unwrap_or(s.len())
}

// What stands behind the byte at k.
pub fn after(s: &[u8], k: usize) -> &[u8] {
    match s.get(k..) {
        Some([_, rest @ ..]) => rest,
        _ => &[],
    }
}
