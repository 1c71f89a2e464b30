// Point and derivative of a curve: eval in both modes, and its steps for a curve that was validated before.
ghost use Rattle.std.specs.Prelude.{◌≡◌, true, ◌+◌, ◌*◌, ◌<◌, ◌≤◌, length};
ghost use Rattle.knots.specs.Span.{refusing, clamping};
ghost use Rattle.knots.specs.Shape.{curve_shape};
ghost use Rattle.knots.specs.Whole.{on};
ghost use Rattle.evaluate.specs.Curve.{quotient, curve_of, found_of, eval_at_of, eval_of};

use crate::controls::{scale_at, value_and_slope};
use crate::refusals::{eval_refusal, step_refusal};
use crate::sums::Sums;
use basis::ders::basis_derivatives;
use knots::curve::Curve;
use knots::refusal::Refusal;
use knots::span::{clamp, span_of};
use runs::points::point_at;
use runs::vector::Vector;

#[derive(Clone, Copy, Debug, PartialEq)]
pub struct CurveDerivs {
    pub point: Vector,
    pub d1: Vector,
}

// The point and the first derivative from the sums of rows 0 and 1, relative to o.
fn quotient_of(o: Vector, a: Sums, d: Sums) -> CurveDerivs
    ensures { result ≡ quotient o a d }
{
    let x = a.x / a.w;
    let y = a.y / a.w;
    let z = a.z / a.w;
    let point = Vector {
        x: o.x + x,
        y: o.y + y,
        z: o.z + z,
    };
    let d1 = Vector {
        x: (d.x - x * d.w) / a.w,
        y: (d.y - y * d.w) / a.w,
        z: (d.z - z * d.w) / a.w,
    };
    CurveDerivs { point, d1 }
}

// The point and the first derivative at u in a span.
fn curve_at(curve: Curve, span: usize, u: f64) -> CurveDerivs
    requires p_nonzero { 0 < curve.degree }
    requires p_bound { curve.degree ≤ 64 }
    requires p_le_span { curve.degree ≤ span }
    requires p_in_bounds { span + curve.degree < length curve.knots.now }
    requires span_in_bounds { span * 3 + 2 < length curve.points.now }
    requires span_in_bounds_2 { curve.rational ≡ true → span < length curve.weights.now }
    ensures { result ≡ on curve.entry curve_of span u }
{
    let Curve {
        points,
        rational,
        weights,
        ..
    } = curve;
    let p = curve.degree;
    let mut ders = [0.0; 195];
    basis_derivatives(span, u, p, 1, curve.knots, &mut ders);
    let first = span - p;
    let scale = scale_at(rational, weights, first, p + 1);
    let o = point_at(points, first);
    let s = value_and_slope(p, first, scale, points, rational, weights, &ders);
    quotient_of(o, s.value, s.slope)
}

// The point and the first derivative at t of runs that fit each other, on the span that the search finds.
fn found_at(curve: Curve, t: f64) -> CurveDerivs
    requires degree_bound { curve.degree ≤ 64 }
    requires weights_value { (on curve curve_shape).number ≡ 0 }
    ensures { result ≡ on curve.entry found_of t }
{
    let Curve { degree, knots, .. } = curve;
    let count = curve.points.len() / 3;
    let span = span_of(degree, count, t, knots);
    let u = clamp(degree, count, t, knots);
    curve_at(curve, span, u)
}

// The step of eval in a mode, on a curve that was validated before: only lengths, the degree, t and the domain's ends are tested, so that many calls validate once.
pub fn eval_step(clamps: bool, curve: Curve, t: f64) -> Result<CurveDerivs, Refusal>
    ensures { result ≡ on curve.entry (eval_at_of clamps) t }
{
    step_refusal(clamps, curve, t)?;
    Ok(found_at(curve, t))
}

// The same where a t outside the domain is refused.
pub fn eval_at(curve: Curve, t: f64) -> Result<CurveDerivs, Refusal>
    ensures { result ≡ on curve.entry (eval_at_of refusing) t }
{
    eval_step(false, curve, t)
}

// The point and the first derivative of a curve at t, or a refusal: 43 where t lies outside the domain.
pub fn eval(curve: Curve, t: f64) -> Result<CurveDerivs, Refusal>
    ensures { result ≡ on curve.entry (eval_of refusing) t }
{
    eval_refusal(false, curve, t)?;
    Ok(found_at(curve, t))
}

// The same, where a finite t outside the domain becomes the nearer end.
pub fn eval_clamped(curve: Curve, t: f64) -> Result<CurveDerivs, Refusal>
    ensures { result ≡ on curve.entry (eval_of clamping) t }
{
    eval_refusal(true, curve, t)?;
    Ok(found_at(curve, t))
}
