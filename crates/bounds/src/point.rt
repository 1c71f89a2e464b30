// Bounds of the point of a curve alone: the bits of bound_curve's, without derivatives.
ghost use Rattle.std.specs.Prelude.{◌≡◌, ◌+◌, ◌≤◌, ◌<◌, length};
ghost use Rattle.bounds.specs.Curve.{bound_of, bound_at, span_bound};
ghost use Rattle.bounds.specs.Point.{along_of, flat_cartesian, point_part, point_only};
ghost use Rattle.knots.specs.Curve.{count_of};
ghost use Rattle.knots.specs.Whole.{on};
ghost use Rattle.runs.specs.Fraction.{coordinate_value};
ghost use Rattle.bounds.specs.Numbers.{point_refusal};
ghost use Rattle.bounds.specs.Holds.{PointHolds, PointHoldsOn, NotIdle};

use crate::answer::Triple;
use crate::flat::{Within, flat_row};
use crate::start::weights_of;
use ends::ends::interval_of;
use ends::flat::Flat;
use interval::Interval;
use interval::float::{max, min};
use knots::curve::{Curve, curve_refusal};
use knots::refusal::{Reason, Refusal, refuse};
use ranges::range::{range_refusal, span_over};
use ranges::read::start_refusal;
use runs::points::point_at;
use runs::vector::Vector;

// One coordinate, r the weight's reciprocal.
fn along(h: Interval, r: Interval, o: f64) -> Interval
    ensures { result ≡ along_of h r o }
{
    h.mul(r).add(Interval::point(o))
}

fn flat_cartesian(h: Flat, o: Vector, bound: Interval) -> Result<Triple, Refusal>
    ensures { result ≡ flat_cartesian h o bound }
{
    let own = interval_of(h.w);
    let lo = max(own.lo(), bound.lo());
    let hi = min(own.hi(), bound.hi());
    let Some(w) = Interval::new(lo, hi) else {
        return Err(refuse(Reason::WeightsApart));
    };
    let r = interval::reciprocal(w)?;
    Ok(Triple {
        x: along(interval_of(h.x), r, o.x),
        y: along(interval_of(h.y), r, o.y),
        z: along(interval_of(h.z), r, o.z),
    })
}

// The intervals on span s.
fn point_on(curve: Curve, s: usize, lo: f64, hi: f64) -> Result<Triple, Refusal>
    requires degree_bound { curve.degree ≤ 64 }
    requires degree_le_s { curve.degree ≤ s }
    requires degree_in_bounds { s + curve.degree < length curve.knots.now }
    requires s_bound { s < 1048576 }
    ensures { result ≡ point_part (on curve.entry (λ p ks ps g ws. span_bound p s ks ps ws g lo hi)) }
{
    let Curve {
        degree,
        knots,
        points,
        rational,
        weights,
    } = curve;
    let first = s - degree;
    let w = weights_of(rational, weights, first, degree + 1)?;
    let o = point_at(points, first);
    let Some(t) = Interval::new(lo, hi) else {
        return Err(refuse(Reason::RangeBad));
    };
    let within = Within { degree, span: s, t };
    let h = flat_row(points, weights, rational, first, o, w.scale, knots, within)?;
    flat_cartesian(h, o, w.bound)
}

// The point's part of bound_curve, to the bit and with its refusals.
pub fn bound_point(curve: Curve, lo: f64, hi: f64) -> Result<Triple, Refusal>
    ensures value { result ≡ point_only (on curve.entry bound_of lo hi) }
    ensures point_holds { on curve.entry PointHolds lo hi result }
    ensures not_idle { NotIdle (point_refusal result).number }
{
    curve_refusal(curve)?;
    let count = curve.points.len() / 3;
    let s = span_over(curve.degree, count, curve.knots, lo, hi);
    range_refusal(curve.degree, count, s, lo, hi)?;
    point_on(curve, s, lo, hi)
}

// The point's part of bound_span: no number but the span's own is read.
pub fn point_span(curve: Curve, span: usize, lo: f64, hi: f64) -> Result<Triple, Refusal>
    ensures value { result ≡ point_only (on curve.entry (λ p. bound_at p span) lo hi) }
    ensures point_holds_on { on curve.entry (λ p ks ps g ws. PointHoldsOn p span ks (count_of ps) g ws lo hi (coordinate_value ps) result) }
    ensures not_idle { NotIdle (point_refusal result).number }
{
    start_refusal(curve, span, lo, hi)?;
    point_on(curve, span, lo, hi)
}
