// Numbers in eight bytes of a place, the lowest first.
ghost use Rattle.std.specs.Prelude.{◌≡◌, ◌++◌, ◌+◌, ◌≤◌, length, take, drop};
ghost use Rattle.clock.specs.Records.{bytes_of};
ghost use Rattle.clock.specs.Numbers.{Number};

pub fn get_number(place: &[u8], at: usize) -> u64
    requires { at + 8 ≤ length place.now }
    ensures { Number place.now at result }
{
    let mut bytes = [0u8; 8];
    let end = at + 8;
    bytes.copy_from_slice(&place[at..end]);
    u64::from_le_bytes(bytes)
}

pub fn put_number(place: &mut [u8], at: usize, n: u64)
    requires { at + 8 ≤ length place.old }
    ensures { place.new ≡ take at place.old ++ (bytes_of n ++ drop 8 (drop at place.old)) }
{
    let bytes = n.to_le_bytes();
    let end = at + 8;
    place[at..end].copy_from_slice(&bytes);
}
