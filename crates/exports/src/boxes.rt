// Bounds of curves and surfaces. A box is 18 numbers: point, du and dv, three coordinates each, low before high; of the point alone it is the first six.
ghost use Rattle.bounds.specs.Curve.{bound_of};
ghost use Rattle.bounds.specs.Holds.{Holds, PointHolds, SurfaceHolds, NotIdle};
ghost use Rattle.bounds.specs.Numbers.{bounded_refusal, bounded_values, point_refusal, point_values};
ghost use Rattle.bounds.specs.Point.{point_only};
ghost use Rattle.bounds.specs.Surface.{surface_of};
ghost use Rattle.exports.specs.Answer.{Leaves, values};
ghost use Rattle.exports.specs.Boxes.{bounded_answer, point_bounded_answer};

use crate::answer::put_refusal;
use bounds::answer::{NurbsBounds, Triple};
use bounds::curve::bound_curve;
use bounds::point::bound_point;
use bounds::store::store_triple;
use bounds::surface::bound_surface;
use knots::clear::clear;
use knots::curve::Curve;
use knots::refusal::Refusal;
use knots::surface::Surface;

// The box, then +0.0; 30 where the run has no room for it.
fn put_box(out: &mut [f64], b: NurbsBounds) -> u64
    ensures { Leaves (values (bounded_values (Ok b))) out.old out.new result }
{
    clear(out);
    if out.len() < 18 {
        return 30;
    }
    store_triple(out, 0, b.point);
    store_triple(out, 6, b.du);
    store_triple(out, 12, b.dv);
    0
}

fn put_bounded(out: &mut [f64], a: Result<NurbsBounds, Refusal>) -> u64
    ensures { Leaves (bounded_answer a) out.old out.new result }
{
    match a {
        Ok(b) => put_box(out, b),
        Err(r) => put_refusal(out, r),
    }
}

// The six numbers, then +0.0; 30 where the run has no room for them.
fn put_triple(out: &mut [f64], t: Triple) -> u64
    ensures { Leaves (values (point_values (Ok t))) out.old out.new result }
{
    clear(out);
    if out.len() < 6 {
        return 30;
    }
    store_triple(out, 0, t);
    0
}

fn put_point(out: &mut [f64], a: Result<Triple, Refusal>) -> u64
    ensures { Leaves (point_bounded_answer a) out.old out.new result }
{
    match a {
        Ok(t) => put_triple(out, t),
        Err(r) => put_refusal(out, r),
    }
}

// The bounds of a curve on the closed range [lo, hi]: they hold the exact point and derivative, dv holds 0, and 28 and 29 are never given.
pub fn tasulogi_bound_curve(
    degree: usize,
    knots: &[f64],
    points: &[f64],
    rational: bool,
    weights: &[f64],
    lo: f64,
    hi: f64,
    out: &mut [f64],
) -> u64
    ensures leaves { Leaves (bounded_answer (bound_of degree knots.now points.now rational weights.now lo hi)) out.old out.new result }
    ensures holds { Holds degree knots.now points.now rational weights.now lo hi (bound_of degree knots.now points.now rational weights.now lo hi) }
    ensures not_idle { NotIdle (bounded_refusal (bound_of degree knots.now points.now rational weights.now lo hi)).number }
{
    put_bounded(
        out,
        bound_curve(
            Curve {
                degree,
                knots,
                points,
                rational,
                weights,
            },
            lo,
            hi,
        ),
    )
}

// The point's part of tasulogi_bound_curve: six numbers, to the bit and with its refusals; 30 where the run has fewer than six.
pub fn tasulogi_bound_point(
    degree: usize,
    knots: &[f64],
    points: &[f64],
    rational: bool,
    weights: &[f64],
    lo: f64,
    hi: f64,
    out: &mut [f64],
) -> u64
    ensures leaves { Leaves (point_bounded_answer (point_only (bound_of degree knots.now points.now rational weights.now lo hi))) out.old out.new result }
    ensures point_holds { PointHolds degree knots.now points.now rational weights.now lo hi (point_only (bound_of degree knots.now points.now rational weights.now lo hi)) }
    ensures not_idle { NotIdle (point_refusal (point_only (bound_of degree knots.now points.now rational weights.now lo hi))).number }
{
    put_point(
        out,
        bound_point(
            Curve {
                degree,
                knots,
                points,
                rational,
                weights,
            },
            lo,
            hi,
        ),
    )
}

// The bounds of a surface on a closed rectangle: they hold the exact point and both its first derivatives at every pair of fractions, and 28 and 29 are never given.
pub fn tasulogi_bound_surface(
    p: usize,
    q: usize,
    uk: &[f64],
    vk: &[f64],
    un: usize,
    vn: usize,
    points: &[f64],
    rational: bool,
    weights: &[f64],
    u_lo: f64,
    u_hi: f64,
    v_lo: f64,
    v_hi: f64,
    out: &mut [f64],
) -> u64
    ensures leaves { Leaves (bounded_answer (surface_of p q uk.now vk.now un vn points.now rational weights.now u_lo u_hi v_lo v_hi)) out.old out.new result }
    ensures surface_holds { SurfaceHolds p q uk.now vk.now un vn points.now rational weights.now u_lo u_hi v_lo v_hi (surface_of p q uk.now vk.now un vn points.now rational weights.now u_lo u_hi v_lo v_hi) }
    ensures not_idle { NotIdle (bounded_refusal (surface_of p q uk.now vk.now un vn points.now rational weights.now u_lo u_hi v_lo v_hi)).number }
{
    put_bounded(
        out,
        bound_surface(
            Surface {
                u_degree: p,
                v_degree: q,
                u_knots: uk,
                v_knots: vk,
                u_count: un,
                v_count: vn,
                points,
                rational,
                weights,
            },
            u_lo,
            u_hi,
            v_lo,
            v_hi,
        ),
    )
}
