// One descriptor, in a slot: how far an event agrees with it, byte by byte.
ghost use Rattle.std.specs.Prelude.{◌≡◌, ◌≤◌, length};
ghost use Rattle.definition.specs.Rows.{same};
ghost use Rattle.definition.specs.Names.{star, before_zero};
ghost use Rattle.onepass.specs.Pass.{ends_here, advanced, followed, matched_by, begun, is_going, is_yes, parts_from};

// How far the event agrees with a descriptor: so far in every byte; or it is known that the descriptor matches, or does not.
#[derive(Clone, Copy)]
pub enum Progress {
    Going,
    Yes,
    No,
}

// Whether the slot holds "*".
fn is_star(slot: &[u8]) -> bool
    ensures { result ≡ same (before_zero slot.now) star }
{
    if slot.len() == 0 {
        return false;
    }
    if slot[0] != b'*' {
        return false;
    }
    if slot.len() == 1 {
        return true;
    }
    slot[1] == 0
}

// Whether the descriptor, without a ".*" at its end, ends where the slot begins.
fn ends_here(slot: &[u8]) -> bool
    ensures { result ≡ ends_here slot.now }
{
    if slot.len() == 0 {
        return true;
    }
    let x = slot[0];
    if x == 0 {
        return true;
    }
    if x != b'.' {
        return false;
    }
    is_star(&slot[1..])
}

// One byte b of the event against what is left of a descriptor.
fn advance(slot: &[u8], b: u8) -> Progress
    ensures { result ≡ advanced slot.now b }
{
    if ends_here(slot) {
        if b == b'.' {
            return Progress::Yes;
        }
        return Progress::No;
    }
    if slot.len() == 0 {
        return Progress::No;
    }
    if slot[0] == b {
        return Progress::Going;
    }
    Progress::No
}

// Byte b, the event's i-th, for a descriptor that has come so far.
pub fn follow(slot: &[u8], i: usize, b: u8, p: Progress) -> Progress
    requires { i ≤ length slot.now }
    ensures { result ≡ followed slot.now i b p }
{
    match p {
        Progress::Yes => Progress::Yes,
        Progress::No => Progress::No,
        Progress::Going => advance(&slot[i..], b),
    }
}

// The event has ended after i bytes, or the descriptor is settled.
pub fn matched(slot: &[u8], i: usize, p: Progress) -> bool
    requires { i ≤ length slot.now }
    ensures { result ≡ matched_by slot.now i p }
{
    match p {
        Progress::Yes => true,
        Progress::No => false,
        Progress::Going => ends_here(&slot[i..]),
    }
}

// Where a descriptor begins: "*" matches all.
pub fn begin(slot: &[u8]) -> Progress
    ensures { result ≡ begun slot.now }
{
    if is_star(slot) {
        return Progress::Yes;
    }
    Progress::Going
}

pub fn is_going(p: Progress) -> bool
    ensures { result ≡ is_going p }
{
    match p {
        Progress::Going => true,
        Progress::Yes => false,
        Progress::No => false,
    }
}

pub fn is_yes(p: Progress) -> bool
    ensures { result ≡ is_yes p }
{
    match p {
        Progress::Going => false,
        Progress::Yes => true,
        Progress::No => false,
    }
}

// Whether y, the next byte of a descriptor that goes on, is neither x nor a possible end: then an event with x there is not matched.
pub fn parts(x: u8, y: u8) -> bool
    ensures { result ≡ parts_from x y }
{
    (y != x) & (y != 0) & (y != b'.')
}
