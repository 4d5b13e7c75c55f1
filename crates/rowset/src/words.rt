// The four words of a set, each by itself.
ghost use Rattle.std.specs.Prelude.{◌≡◌, [], ◌∷◌, ◌-◌, ◌^◌, ◌<◌, min};
ghost use Rattle.definition.specs.Compiled.{word};
ghost use Rattle.rowset.specs.Member.{LowFrom, HighBelow};

// Word q of the set of row k.
pub fn placed(k: u8, q: u8) -> u64
    ensures { result ≡ word (k ∷ []) q }
{
    if k / 64 == q {
        return 1u64 << (k % 64);
    }
    0
}

// The word of all bits below k.
pub fn ones_below(k: u16) -> u64
    ensures { result ≡ 2 ^ min k 64 - 1 }
{
    if k < 64 {
        return (1u64 << k) - 1;
    }
    u64::MAX
}

// The lowest set bit of w at or above k, and 64 where there is none. Most words of a set are empty: these are told first.
pub fn low_from(w: u64, k: u16) -> u16
    requires { k < 64 }
    ensures { LowFrom w k result }
{
    if w == 0 {
        return 64;
    }
    let t = u64::trailing_zeros(w >> k) as u16;
    if k + t < 64 {
        return k + t;
    }
    64
}

// The highest set bit of w below k, and 64 where there is none.
pub fn high_below(w: u64, k: u16) -> u16
    ensures { HighBelow w (min k 64) result }
{
    let v = w & ones_below(k);
    if v == 0 {
        return 64;
    }
    63 - u64::leading_zeros(v) as u16
}
