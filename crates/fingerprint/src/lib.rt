// One number of a compiled chart, by which a host can see that a stored session belongs to it. It is a function of the chart's numbers and names, and no more is promised of it.
#![tactic(auto)]

ghost use Rattle.std.specs.Prelude.{◌≡◌};
ghost use Rattle.fingerprint.specs.Fingerprint.{mix, fingerprint};

const BASIS: u64 = 14695981039346656037;

// (sum + x) * (2^40 + 2^8 + 1), modulo 2^64.
fn mix(sum: u64, x: u64) -> u64
    ensures { result ≡ mix sum x }
{
    let y = sum.wrapping_add(x);
    let z = (y << 40).wrapping_add(y << 8);
    z.wrapping_add(y)
}

pub fn fingerprint(chart: &[u64], names: &[u8]) -> u64
    ensures { result ≡ fingerprint chart.now names.now }
{
    let sum = chart.iter().fold(BASIS, |h, x| mix(h, *x));
    names.iter().fold(sum, |h, x| mix(h, u64::from(*x)))
}
