// A point of a net without derivatives, and de Boor's step on two of them.
ghost use Rattle.std.specs.Prelude.{◌≡◌};
ghost use Rattle.jets.specs.Jet.{parameter_of};
ghost use Rattle.jets.specs.Net.{share_of};
ghost use Rattle.ends.specs.Flat.{dot_of, dot_by, mixed_by, flat_mix, flat_neighbours};

use crate::ends::{Ends, ends_of, interval_of, sum};
use crate::factor::{Factor, are_factors, factor_of, times};
use interval::Interval;
use knots::refusal::Refusal;

// Three weighted coordinates and the weight.
#[derive(Clone, Copy, Debug, PartialEq)]
pub struct Flat {
    pub x: Ends,
    pub y: Ends,
    pub z: Ends,
    pub w: Ends,
}

fn dot(p: Factor, a: Ends, q: Factor, b: Ends) -> Ends
    ensures { result ≡ dot_of p a q b }
{
    sum(times(p, a), times(q, b))
}

// The same where an end is 0 or infinite.
fn dot_by(beta: Interval, a: Ends, alpha: Interval, b: Ends) -> Ends
    ensures { result ≡ dot_by beta a alpha b }
{
    ends_of(beta.mul(interval_of(a)).add(alpha.mul(interval_of(b))))
}

fn mixed_by(beta: Interval, a: Flat, alpha: Interval, b: Flat) -> Flat
    ensures { result ≡ mixed_by beta a alpha b }
{
    Flat {
        x: dot_by(beta, a.x, alpha, b.x),
        y: dot_by(beta, a.y, alpha, b.y),
        z: dot_by(beta, a.z, alpha, b.z),
        w: dot_by(beta, a.w, alpha, b.w),
    }
}

// (1 - alpha) a + alpha b.
fn mix(alpha: Interval, a: Flat, b: Flat) -> Flat
    ensures { result ≡ flat_mix alpha a b }
{
    let beta = Interval::point(1.0).sub(alpha);
    let p = factor_of(beta);
    let q = factor_of(alpha);
    if are_factors(p, q) {
        Flat {
            x: dot(p, a.x, q, b.x),
            y: dot(p, a.y, q, b.y),
            z: dot(p, a.z, q, b.z),
            w: dot(p, a.w, q, b.w),
        }
    } else {
        mixed_by(beta, a, alpha, b)
    }
}

// Two neighbours under the share between two knots, (t - left) / (right - left).
pub fn flat_step(t: Interval, left: f64, right: f64, a: Flat, b: Flat) -> Result<Flat, Refusal>
    ensures { result ≡ flat_neighbours (share_of (parameter_of t) left right) a b }
{
    let l = Interval::point(left);
    let d = Interval::point(right).sub(l);
    let q = interval::divide(Interval::point(1.0), d)?;
    Ok(mix(t.sub(l).mul(q), a, b))
}
