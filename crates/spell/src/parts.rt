// Bytes, one after the other, and numbers in decimal.
ghost use Rattle.std.specs.Prelude.{◌≡◌, [], ◌∷◌, ◌+◌, ◌%◌};
ghost use Rattle.reading.specs.Print.{number};
ghost use Rattle.spell.specs.Laid.{Laid};

// "the reader's 32,768 bytes" (4.7)
pub const LONGEST: usize = 32768;

// A number of at most ten digits.
const MOST_DIGITS: usize = 10;

pub fn lay_byte(b: u8, out: &mut [u8], at: usize) -> usize
    ensures { Laid (b ∷ []) out.old at out.new result }
{
    if LONGEST < at {
        return at;
    }
    if at == LONGEST {
        return at + 1;
    }
    if out.len() <= at {
        return at + 1;
    }
    out[at] = b;
    at + 1
}

pub fn lay_part(part: &[u8], out: &mut [u8], at: usize) -> usize
    ensures { Laid part.now out.old at out.new result }
{
    let mut next = at;
    for b in part {
        next = lay_byte(*b, out, next);
    }
    next
}

fn digit(n: u64) -> u8
    ensures { result ≡ 48 + n % 10 }
{
    (48 + n % 10) as u8
}

// In decimal, from the last digit on; there is no zero before the first.
pub fn lay_number(n: u64, out: &mut [u8], at: usize) -> usize
    ensures { Laid (number n) out.old at out.new result }
{
    let mut spelt = [0u8; 10];
    let mut m = n;
    for i in (0..MOST_DIGITS).rev() {
        spelt[i] = digit(m);
        if m <= 9 {
            return lay_part(&spelt[i..], out, at);
        }
        m /= 10;
    }
    lay_part(&spelt, out, at)
}
