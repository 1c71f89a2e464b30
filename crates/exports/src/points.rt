// Points with their derivatives, of curves and surfaces: three numbers for each, the point first.
ghost use Rattle.std.specs.Prelude.{[]};
ghost use Rattle.knots.specs.Span.{refusing, clamping};
ghost use Rattle.evaluate.specs.Curve.{eval_of};
ghost use Rattle.evaluate.specs.Curve2.{eval2_of};
ghost use Rattle.evaluate.specs.Surface.{eval_surface_of};
ghost use Rattle.evaluate.specs.Numbers.{onto};
ghost use Rattle.exports.specs.Answer.{Leaves, values};
ghost use Rattle.exports.specs.Points.{curve_answer, curve2_answer, surface_answer};

use crate::answer::put_refusal;
use evaluate::curve::{CurveDerivs, eval, eval_clamped};
use evaluate::curve2::{CurveDerivs2, eval2, eval2_clamped};
use evaluate::surface::{SurfaceDerivs, eval_surface, eval_surface_clamped};
use knots::clear::clear;
use knots::curve::Curve;
use knots::refusal::Refusal;
use knots::surface::Surface;
use runs::store::store_vector;
use runs::vector::Vector;

// Two vectors, then +0.0; 30 where the run has no room for them.
fn put_vectors(out: &mut [f64], a: Vector, b: Vector) -> u64
    ensures { Leaves (values (onto a (onto b []))) out.old out.new result }
{
    clear(out);
    if out.len() < 6 {
        return 30;
    }
    store_vector(out, 0, a);
    store_vector(out, 3, b);
    0
}

// Three vectors, then +0.0; 30 where the run has no room for them.
fn put_three_vectors(out: &mut [f64], a: Vector, b: Vector, c: Vector) -> u64
    ensures { Leaves (values (onto a (onto b (onto c [])))) out.old out.new result }
{
    clear(out);
    if out.len() < 9 {
        return 30;
    }
    store_vector(out, 0, a);
    store_vector(out, 3, b);
    store_vector(out, 6, c);
    0
}

// A curve's point and first derivative, or the refusal.
pub fn put_curve(out: &mut [f64], a: Result<CurveDerivs, Refusal>) -> u64
    ensures { Leaves (curve_answer a) out.old out.new result }
{
    match a {
        Ok(d) => put_vectors(out, d.point, d.d1),
        Err(r) => put_refusal(out, r),
    }
}

// Its point and two derivatives, or the refusal.
fn put_curve2(out: &mut [f64], a: Result<CurveDerivs2, Refusal>) -> u64
    ensures { Leaves (curve2_answer a) out.old out.new result }
{
    match a {
        Ok(d) => put_three_vectors(out, d.point, d.d1, d.d2),
        Err(r) => put_refusal(out, r),
    }
}

// A surface's point and its derivatives along u and v, or the refusal.
fn put_surface(out: &mut [f64], a: Result<SurfaceDerivs, Refusal>) -> u64
    ensures { Leaves (surface_answer a) out.old out.new result }
{
    match a {
        Ok(s) => put_three_vectors(out, s.point, s.du, s.dv),
        Err(r) => put_refusal(out, r),
    }
}

// The point and the first derivative of a curve.
pub fn tasulogi_eval(
    degree: usize,
    knots: &[f64],
    points: &[f64],
    rational: bool,
    weights: &[f64],
    t: f64,
    out: &mut [f64],
) -> u64
    ensures { Leaves (curve_answer (eval_of refusing degree knots.now points.now rational weights.now t)) out.old out.new result }
{
    put_curve(
        out,
        eval(
            Curve {
                degree,
                knots,
                points,
                rational,
                weights,
            },
            t,
        ),
    )
}

// The same, where a finite parameter outside the domain becomes the nearer end.
pub fn tasulogi_eval_clamped(
    degree: usize,
    knots: &[f64],
    points: &[f64],
    rational: bool,
    weights: &[f64],
    t: f64,
    out: &mut [f64],
) -> u64
    ensures { Leaves (curve_answer (eval_of clamping degree knots.now points.now rational weights.now t)) out.old out.new result }
{
    put_curve(
        out,
        eval_clamped(
            Curve {
                degree,
                knots,
                points,
                rational,
                weights,
            },
            t,
        ),
    )
}

// The point and two derivatives of a curve.
pub fn tasulogi_eval2(
    degree: usize,
    knots: &[f64],
    points: &[f64],
    rational: bool,
    weights: &[f64],
    t: f64,
    out: &mut [f64],
) -> u64
    ensures { Leaves (curve2_answer (eval2_of refusing degree knots.now points.now rational weights.now t)) out.old out.new result }
{
    put_curve2(
        out,
        eval2(
            Curve {
                degree,
                knots,
                points,
                rational,
                weights,
            },
            t,
        ),
    )
}

// The same, where a finite parameter outside the domain becomes the nearer end.
pub fn tasulogi_eval2_clamped(
    degree: usize,
    knots: &[f64],
    points: &[f64],
    rational: bool,
    weights: &[f64],
    t: f64,
    out: &mut [f64],
) -> u64
    ensures { Leaves (curve2_answer (eval2_of clamping degree knots.now points.now rational weights.now t)) out.old out.new result }
{
    put_curve2(
        out,
        eval2_clamped(
            Curve {
                degree,
                knots,
                points,
                rational,
                weights,
            },
            t,
        ),
    )
}

// The point of a surface and its derivatives along u and v.
pub fn tasulogi_eval_surface(
    p: usize,
    q: usize,
    uk: &[f64],
    vk: &[f64],
    un: usize,
    vn: usize,
    points: &[f64],
    rational: bool,
    weights: &[f64],
    u: f64,
    v: f64,
    out: &mut [f64],
) -> u64
    ensures { Leaves (surface_answer (eval_surface_of refusing p q uk.now vk.now un vn points.now rational weights.now u v)) out.old out.new result }
{
    put_surface(
        out,
        eval_surface(
            Surface {
                u_degree: p,
                v_degree: q,
                u_knots: uk,
                v_knots: vk,
                u_count: un,
                v_count: vn,
                points,
                rational,
                weights,
            },
            u,
            v,
        ),
    )
}

// The same, where finite parameters outside the domain become the nearer ends.
pub fn tasulogi_eval_surface_clamped(
    p: usize,
    q: usize,
    uk: &[f64],
    vk: &[f64],
    un: usize,
    vn: usize,
    points: &[f64],
    rational: bool,
    weights: &[f64],
    u: f64,
    v: f64,
    out: &mut [f64],
) -> u64
    ensures { Leaves (surface_answer (eval_surface_of clamping p q uk.now vk.now un vn points.now rational weights.now u v)) out.old out.new result }
{
    put_surface(
        out,
        eval_surface_clamped(
            Surface {
                u_degree: p,
                v_degree: q,
                u_knots: uk,
                v_knots: vk,
                u_count: un,
                v_count: vn,
                points,
                rational,
                weights,
            },
            u,
            v,
        ),
    )
}
