// Products with an interval whose ends are neither 0 nor infinite, by four products for both ends.
ghost use Rattle.std.specs.Prelude.{◌≡◌, ◌&&◌};
ghost use Rattle.ends.specs.Ends.{most_of, is_part, factor_of, is_factor, times_of};

use crate::ends::{Ends, step};
use interval::Interval;
use interval::float::is_finite;

// Its ends.
#[derive(Clone, Copy, Debug, PartialEq)]
pub struct Factor {
    pub low: f64,
    pub high: f64,
}

pub fn factor_of(i: Interval) -> Factor
    ensures { result ≡ factor_of i }
{
    Factor {
        low: i.lo(),
        high: i.hi(),
    }
}

// Neither 0 nor infinite.
fn is_part(x: f64) -> bool
    ensures { result ≡ is_part x }
{
    is_finite(x) && x != 0.0
}

pub fn is_factor(f: Factor) -> bool
    ensures { result ≡ is_factor f }
{
    is_part(f.low) && is_part(f.high)
}

pub fn are_factors(p: Factor, q: Factor) -> bool
    ensures { result ≡ (is_factor p && is_factor q) }
{
    is_factor(p) && is_factor(q)
}

fn most(a: f64, b: f64) -> f64
    ensures { result ≡ most_of a b }
{
    if a < b { b } else { a }
}

// The largest of the four products of ends, and that of their opposites, one step up.
pub fn times(f: Factor, v: Ends) -> Ends
    ensures { result ≡ times_of f v }
{
    let a = f.low * v.under;
    let b = f.low * v.over;
    let c = f.high * v.under;
    let d = f.high * v.over;
    Ends {
        under: step(most(most(a, -b), most(c, -d))),
        over: step(most(most(-a, b), most(-c, d))),
    }
}
