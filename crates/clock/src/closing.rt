// A due time or a slot goes, those behind it move up.
ghost use Rattle.std.specs.Prelude.{◌≡◌, ◌+◌, ◌*◌, ◌≤◌, length};
ghost use Rattle.clock.specs.Closing.{closed, Behind};

// The due time at place i goes, those behind it move up.
pub fn close_due(dues: &mut [u8], i: u64)
    requires { i * 8 + 8 ≤ length dues.old }
    ensures { dues.new ≡ closed 8 dues.old i }
{
    let from = i as usize * 8;
    queue::close_first(&mut dues[from..], 8);
}

// The slot at place i of n goes, those behind it move up.
pub fn close_slot(slots: &mut [u8], i: u64, n: u64)
    requires { Behind slots.old i n }
    ensures { slots.new ≡ closed 64 slots.old i }
{
    let from = i as usize * 64;
    queue::take_oldest(&mut slots[from..], n - i);
}
