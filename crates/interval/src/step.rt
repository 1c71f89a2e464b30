// The steps and choices that operations make once no NaN is left: tests of the pattern or one comparison, so that each is a few instructions.
ghost use Rattle.std.specs.Prelude.{◌≡◌, false, if◌then◌else◌, from_bits, is_nan, nat_lt};
ghost use Rattle.std.specs.Float.{binary64};
ghost use Rattle.std.specs.Float.Ieee.{nan_bits, neg};
ghost use Rattle.doubles.specs.Neighbour.{next_up, next_down, fmin, fmax, fabs};
ghost use Rattle.doubles.specs.Place.{mag};

// The pattern of the double above: one more where the sign is clear, one less where it is set; infinity stays.
// The sign is counted and not tested, since a processor seldom foresees it.
fn pattern_above(b: u64) -> u64
    requires { nan_bits binary64 b ≡ false }
    ensures { from_bits binary64 result ≡ next_up (from_bits binary64 b) }
{
    if b == 0x8000_0000_0000_0000 {
        return 1;
    }
    if b == 0x7ff0_0000_0000_0000 {
        return b;
    }
    b - 2 * (b / 0x8000_0000_0000_0000) + 1
}

pub fn above(x: f64) -> f64
    requires { is_nan x ≡ false }
    ensures { result ≡ next_up x }
{
    f64::from_bits(pattern_above(f64::to_bits(x)))
}

pub fn below(x: f64) -> f64
    requires { is_nan x ≡ false }
    ensures { result ≡ next_down x }
{
    -above(-x)
}

// The first, or the second where the first is a NaN.
pub fn number(a: f64, b: f64) -> f64
    ensures { result ≡ (if is_nan a then b else a) }
{
    if a == a { a } else { b }
}

pub fn least(a: f64, b: f64) -> f64
    requires { is_nan a ≡ false }
    ensures { result ≡ fmin a b }
{
    if b < a { b } else { a }
}

pub fn most(a: f64, b: f64) -> f64
    requires { is_nan a ≡ false }
    ensures { result ≡ fmax a b }
{
    if a < b { b } else { a }
}

// The pattern of x without its sign: patterns of larger sizes are larger.
fn size(x: f64) -> u64
    requires { is_nan x ≡ false }
    ensures { result ≡ mag binary64 x }
{
    f64::to_bits(x) % 0x8000_0000_0000_0000
}

// |x|: -0.0 gives 0.0.
pub fn absolute(x: f64) -> f64
    requires { is_nan x ≡ false }
    ensures { result ≡ fabs x }
{
    f64::from_bits(size(x))
}

fn larger(m: u64, n: u64) -> u64
    ensures { result ≡ (if nat_lt m n then n else m) }
{
    if m < n { n } else { m }
}

// The double above the larger of two sizes, which integers find quicker than doubles.
pub fn above_sizes(p: f64, q: f64) -> f64
    requires { (is_nan p ≡ false) × (is_nan q ≡ false) }
    ensures { result ≡ next_up (fmax (fmax p (neg p)) (fmax q (neg q))) }
{
    f64::from_bits(pattern_above(larger(size(p), size(q))))
}
