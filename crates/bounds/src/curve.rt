// Bounds of a curve on one nonempty span.
ghost use Rattle.std.specs.Prelude.{◌≡◌, ◌+◌, ◌≤◌, ◌<◌, length};
ghost use Rattle.bounds.specs.Curve.{bound_of, bound_at, span_bound};
ghost use Rattle.knots.specs.Curve.{count_of};
ghost use Rattle.knots.specs.Whole.{on};
ghost use Rattle.runs.specs.Fraction.{coordinate_value};
ghost use Rattle.bounds.specs.Numbers.{bounded_refusal};
ghost use Rattle.bounds.specs.Holds.{Holds, HoldsOn, NotIdle};

use crate::answer::{NurbsBounds, answer_of};
use crate::levels::Along;
use crate::start::{row_of, weights_of};
use interval::Interval;
use jets::cartesian::{Bounds, cartesian_of};
use jets::jet::parameter;
use knots::curve::{Curve, curve_refusal};
use knots::refusal::{Reason, Refusal, refuse};
use ranges::range::{range_refusal, span_over};
use ranges::read::start_refusal;
use runs::points::point_at;

// The bounds on span s.
fn on_span(curve: Curve, s: usize, lo: f64, hi: f64) -> Result<Bounds, Refusal>
    requires degree_bound { curve.degree ≤ 64 }
    requires degree_le_s { curve.degree ≤ s }
    requires degree_in_bounds { s + curve.degree < length curve.knots.now }
    requires s_bound { s < 1048576 }
    ensures { result ≡ on curve.entry (λ p ks ps g ws. span_bound p s ks ps ws g lo hi) }
{
    let Curve {
        degree,
        knots,
        points,
        rational,
        weights,
    } = curve;
    let first = s - degree;
    let w = weights_of(rational, weights, first, degree + 1)?;
    let o = point_at(points, first);
    let Some(range) = Interval::new(lo, hi) else {
        return Err(refuse(Reason::RangeBad));
    };
    let t = parameter(range);
    let along = Along { degree, span: s, t };
    let net = row_of(points, weights, rational, first, o, w.scale, knots, along);
    cartesian_of(net, o, w.bound)
}

// The bounds of a curve over the closed range [lo, hi], which one nonempty span must contain. The first such span is taken, so a range that is one inner knot belongs to the span before it. They hold the exact point and its exact first derivative at every fraction of the range, and dv holds 0. 28 and 29 are never given.
pub fn bound_curve(curve: Curve, lo: f64, hi: f64) -> Result<NurbsBounds, Refusal>
    ensures value { result ≡ on curve.entry bound_of lo hi }
    ensures holds { on curve.entry Holds lo hi result }
    ensures not_idle { NotIdle (bounded_refusal result).number }
{
    curve_refusal(curve)?;
    let count = curve.points.len() / 3;
    let s = span_over(curve.degree, count, curve.knots, lo, hi);
    range_refusal(curve.degree, count, s, lo, hi)?;
    answer_of(on_span(curve, s, lo, hi))
}

// The bounds on a span that is asked for by its index: no number but the span's own is read, so that a walk over all spans of a valid curve validates once. Where it answers, its bounds hold the exact point and derivative, and dv holds 0, whatever the rest of the table is. 28 and 29 are never given.
pub fn bound_span(curve: Curve, span: usize, lo: f64, hi: f64) -> Result<NurbsBounds, Refusal>
    ensures value { result ≡ on curve.entry (λ p. bound_at p span) lo hi }
    ensures holds_on { on curve.entry (λ p ks ps g ws. HoldsOn p span ks (count_of ps) g ws lo hi (coordinate_value ps) result) }
    ensures not_idle { NotIdle (bounded_refusal result).number }
{
    start_refusal(curve, span, lo, hi)?;
    answer_of(on_span(curve, span, lo, hi))
}
