// Point and two derivatives of a curve: eval2 in both modes, and its steps for a curve that was validated before.
ghost use Rattle.std.specs.Prelude.{◌≡◌, true, ◌+◌, ◌*◌, ◌<◌, ◌≤◌, length};
ghost use Rattle.knots.specs.Span.{refusing, clamping};
ghost use Rattle.knots.specs.Shape.{curve_shape};
ghost use Rattle.knots.specs.Whole.{on};
ghost use Rattle.evaluate.specs.Curve2.{quotient2, curve2_of, finite2, told2, found2_of, eval2_at_of, eval2_of};

use crate::controls::{row_sums, scale_at};
use crate::refusals::{eval_refusal, step_refusal};
use crate::sums::Sums;
use basis::ders::basis_derivatives;
use knots::curve::Curve;
use knots::refusal::{Reason, Refusal, refuse};
use knots::span::{clamp, span_of};
use runs::points::point_at;
use runs::vector::{Vector, finite_vector};

#[derive(Clone, Copy, Debug, PartialEq)]
pub struct CurveDerivs2 {
    pub point: Vector,
    pub d1: Vector,
    pub d2: Vector,
}

// The point and two derivatives from the sums of rows 0, 1 and 2, relative to o.
fn quotient2_of(o: Vector, a: Sums, d: Sums, e: Sums) -> CurveDerivs2
    ensures { result ≡ quotient2 o a d e }
{
    let x = a.x / a.w;
    let y = a.y / a.w;
    let z = a.z / a.w;
    let twice = 2.0 * d.w;
    let sx = (d.x - x * d.w) / a.w;
    let sy = (d.y - y * d.w) / a.w;
    let sz = (d.z - z * d.w) / a.w;
    let point = Vector {
        x: o.x + x,
        y: o.y + y,
        z: o.z + z,
    };
    let d1 = Vector {
        x: sx,
        y: sy,
        z: sz,
    };
    let d2 = Vector {
        x: (e.x - x * e.w - sx * twice) / a.w,
        y: (e.y - y * e.w - sy * twice) / a.w,
        z: (e.z - z * e.w - sz * twice) / a.w,
    };
    CurveDerivs2 { point, d1, d2 }
}

// The point and two derivatives at u in a span.
fn curve2_at(curve: Curve, span: usize, u: f64) -> CurveDerivs2
    requires p_nonzero { 0 < curve.degree }
    requires p_bound { curve.degree ≤ 64 }
    requires p_le_span { curve.degree ≤ span }
    requires p_in_bounds { span + curve.degree < length curve.knots.now }
    requires span_in_bounds { span * 3 + 2 < length curve.points.now }
    requires span_in_bounds_2 { curve.rational ≡ true → span < length curve.weights.now }
    ensures { result ≡ on curve.entry curve2_of span u }
{
    let Curve {
        points,
        rational,
        weights,
        ..
    } = curve;
    let p = curve.degree;
    let mut ders = [0.0; 195];
    basis_derivatives(span, u, p, 2, curve.knots, &mut ders);
    let first = span - p;
    let o = point_at(points, first);
    let scale = scale_at(rational, weights, first, p + 1);
    let a = row_sums(0, p, first, scale, points, rational, weights, &ders);
    let d = row_sums(1, p, first, scale, points, rational, weights, &ders);
    let e = row_sums(2, p, first, scale, points, rational, weights, &ders);
    quotient2_of(o, a, d, e)
}

// All nine numbers are finite.
fn finite2_of(r: CurveDerivs2) -> bool
    ensures { result ≡ finite2 r }
{
    finite_vector(r.point) && finite_vector(r.d1) && finite_vector(r.d2)
}

// The point and two derivatives at t of runs that fit each other, on the span that the search finds.
fn found2_at(curve: Curve, t: f64) -> CurveDerivs2
    requires degree_bound { curve.degree ≤ 64 }
    requires weights_value { (on curve curve_shape).number ≡ 0 }
    ensures { result ≡ on curve.entry found2_of t }
{
    let Curve { degree, knots, .. } = curve;
    let count = curve.points.len() / 3;
    let span = span_of(degree, count, t, knots);
    let u = clamp(degree, count, t, knots);
    curve2_at(curve, span, u)
}

// The answer of nine numbers: 21 where one is not finite.
fn told2_of(r: CurveDerivs2) -> Result<CurveDerivs2, Refusal>
    ensures { result ≡ told2 r }
{
    if finite2_of(r) {
        return Ok(r);
    }
    Err(refuse(Reason::SecondNotFinite))
}

// The step of eval2 in a mode, on a curve that was validated before: only lengths, the degree, t and the domain's ends are tested, so that many calls validate once.
pub fn eval2_step(clamps: bool, curve: Curve, t: f64) -> Result<CurveDerivs2, Refusal>
    ensures { result ≡ on curve.entry (eval2_at_of clamps) t }
{
    step_refusal(clamps, curve, t)?;
    told2_of(found2_at(curve, t))
}

// The same where a t outside the domain is refused.
pub fn eval2_at(curve: Curve, t: f64) -> Result<CurveDerivs2, Refusal>
    ensures { result ≡ on curve.entry (eval2_at_of refusing) t }
{
    eval2_step(false, curve, t)
}

// The point and two derivatives of a curve at t, or a refusal: 43 where t lies outside the domain, 21 where one of the numbers is not finite.
pub fn eval2(curve: Curve, t: f64) -> Result<CurveDerivs2, Refusal>
    ensures { result ≡ on curve.entry (eval2_of refusing) t }
{
    eval_refusal(false, curve, t)?;
    told2_of(found2_at(curve, t))
}

// The same, where a finite t outside the domain becomes the nearer end.
pub fn eval2_clamped(curve: Curve, t: f64) -> Result<CurveDerivs2, Refusal>
    ensures { result ≡ on curve.entry (eval2_of clamping) t }
{
    eval_refusal(true, curve, t)?;
    told2_of(found2_at(curve, t))
}
