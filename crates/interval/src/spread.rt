// Products with [-s, s], and their sums: what comes out is symmetric about zero too, so that its high end alone is worked out.
ghost use Rattle.std.specs.Prelude.{◌≡◌};
ghost use Rattle.interval.specs.Ops.{add_of, mul_of, opposites_of};

use crate::Interval;
use crate::float::{infinity, is_nan};
use crate::step::{above, above_sizes};

// The high end of [-s, s] a: the four products are two and their opposites.
fn reach(a: Interval, s: f64) -> f64
    ensures { result ≡ (mul_of (opposites_of s) a).hi }
{
    let p = s * a.lo;
    let q = s * a.hi;
    if is_nan(p) {
        return infinity();
    }
    if is_nan(q) {
        return infinity();
    }
    above_sizes(p, q)
}

// The high end of [-a, a] + [-b, b].
fn reach_sum(a: f64, b: f64) -> f64
    ensures { result ≡ (add_of (opposites_of a) (opposites_of b)).hi }
{
    let c = a + b;
    if is_nan(c) {
        return infinity();
    }
    above(c)
}

// [-s, s] a.
pub fn product(a: Interval, s: f64) -> Interval
    ensures { result ≡ mul_of (opposites_of s) a }
{
    let m = reach(a, s);
    Interval { lo: -m, hi: m }
}

// [-s, s] a + [-t, t] b + ([-u, u] c + [-v, v] d).
pub fn sum_of_products(
    a: Interval,
    s: f64,
    b: Interval,
    t: f64,
    c: Interval,
    u: f64,
    d: Interval,
    v: f64,
) -> Interval
    ensures { result ≡ add_of (add_of (mul_of (opposites_of s) a) (mul_of (opposites_of t) b)) (add_of (mul_of (opposites_of u) c) (mul_of (opposites_of v) d)) }
{
    let x = reach_sum(reach(a, s), reach(b, t));
    let y = reach_sum(reach(c, u), reach(d, v));
    let m = reach_sum(x, y);
    Interval { lo: -m, hi: m }
}
