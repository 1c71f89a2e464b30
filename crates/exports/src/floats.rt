// Doubles: tests, neighbours, least and greatest, places. Every call is total.
ghost use Rattle.std.specs.Prelude.{◌≡◌, pos};
ghost use Rattle.std.specs.Float.{binary64};
ghost use Rattle.std.specs.Float.Ieee.{is_nan};
ghost use Rattle.std.specs.Float.Ieee.Scale.{finite};
ghost use Rattle.doubles.specs.Neighbour.{next_up, next_down, fmin, fmax};
ghost use Rattle.doubles.specs.Place.{place as place_of, steps_of};

use interval::{float, place};

pub fn tasulogi_is_nan(x: f64) -> bool
    ensures { result ≡ is_nan x }
{
    float::is_nan(x)
}

pub fn tasulogi_is_finite(x: f64) -> bool
    ensures { result ≡ finite x }
{
    float::is_finite(x)
}

// The least double above x; NaN and plus infinity are their own.
pub fn tasulogi_next_up(x: f64) -> f64
    ensures { result ≡ next_up x }
{
    float::next_up(x)
}

// The greatest double below x; NaN and minus infinity are their own.
pub fn tasulogi_next_down(x: f64) -> f64
    ensures { result ≡ next_down x }
{
    float::next_down(x)
}

// Of a NaN and a number, the number.
pub fn tasulogi_min(a: f64, b: f64) -> f64
    ensures { result ≡ fmin a b }
{
    float::min(a, b)
}

pub fn tasulogi_max(a: f64, b: f64) -> f64
    ensures { result ≡ fmax a b }
{
    float::max(a, b)
}

// The place among all doubles: 0 for both zeros and for NaN, one more for the next double up.
pub fn tasulogi_place(x: f64) -> i64
    ensures { result ≡ place_of binary64 x }
{
    place::place(x)
}

// How many steps lead from lo up to hi; 0 where lo <= hi fails.
pub fn tasulogi_steps(lo: f64, hi: f64) -> u64
    ensures { pos result ≡ steps_of lo hi }
{
    place::steps(lo, hi)
}
