// Lent places copied over, whatever their elements are, and cleared.
#![tactic(auto)]

ghost use Rattle.std.specs.Prelude.{◌≡◌, ◌++◌, ◌≤◌, length, drop, replicate};

// A copy over the beginning of a place.
pub fn copy<T: Copy>(from: &[T], place: &mut [T])
    requires { length from.now ≤ length place.old }
    ensures { place.new ≡ from.now ++ drop (length from.now) place.old }
{
    place[..from.len()].copy_from_slice(from);
}

// ---- zeros

pub fn clear_u8(place: &mut [u8])
    ensures { place.new ≡ replicate (length place.old) 0 }
{
    place.fill(0);
}

pub fn clear_u64(cells: &mut [u64])
    ensures { cells.new ≡ replicate (length cells.old) 0 }
{
    cells.fill(0);
}
