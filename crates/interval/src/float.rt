// Methods of Rust's f64, over bits and comparison. Each is total: it says what it does with NaN, infinities and both zeros.
ghost use Rattle.std.specs.Prelude.{◌≡◌, false, is_nan};
ghost use Rattle.std.specs.Float.{inf};
ghost use Rattle.std.specs.Float.Ieee.Scale.{finite};
ghost use Rattle.doubles.specs.Neighbour.{next_up, next_down, fmin, fmax};

use crate::step::above;

pub fn infinity() -> f64
    ensures { result ≡ inf false }
{
    f64::from_bits(0x7ff0_0000_0000_0000)
}

pub fn is_nan(x: f64) -> bool
    ensures { result ≡ is_nan x }
{
    x != x
}

// Neither a NaN nor an infinity.
pub fn is_finite(x: f64) -> bool
    ensures { result ≡ finite x }
{
    let i = infinity();
    if -i < x { x < i } else { false }
}

// The least double above x. NaN and plus infinity are their own; above -2^-1074 is -0.0, above either zero 2^-1074.
pub fn next_up(x: f64) -> f64
    ensures { result ≡ next_up x }
{
    if x == x { above(x) } else { x }
}

// The greatest double below x.
pub fn next_down(x: f64) -> f64
    ensures { result ≡ next_down x }
{
    -next_up(-x)
}

// Of a NaN and a number, the number; of two equal numbers, the first.
pub fn min(a: f64, b: f64) -> f64
    ensures { result ≡ fmin a b }
{
    if b < a {
        return b;
    }
    if a == a { a } else { b }
}

pub fn max(a: f64, b: f64) -> f64
    ensures { result ≡ fmax a b }
{
    if a < b {
        return b;
    }
    if a == a { a } else { b }
}
