// Bounds of a surface on one rectangle of nonempty spans.
ghost use Rattle.std.specs.Prelude.{◌≡◌};
ghost use Rattle.knots.specs.Refusal.{checked};
ghost use Rattle.knots.specs.Surface.{surface_refusal};
ghost use Rattle.knots.specs.Whole.{across};
ghost use Rattle.ranges.specs.Range.{span_over};
ghost use Rattle.bounds.specs.Surface.{ranges_refusal, bounded_by, surface_of};
ghost use Rattle.bounds.specs.Numbers.{bounded_refusal};
ghost use Rattle.bounds.specs.Holds.{SurfaceHolds, NotIdle};

use crate::answer::{NurbsBounds, answer_of};
use crate::rows::{Side, on_spans};
use knots::refusal::{Reason, Refusal, refuse};
use knots::surface::{Surface, surface_refusal};
use ranges::range::{range_refusal, span_over};

// Refusals 31, then 24 and 25 for u and for v.
fn ranges_refusal(u: Side, v: Side, us: usize, vs: usize) -> Result<(), Refusal>
    ensures { result ≡ checked (ranges_refusal u.degree v.degree u.count v.count us vs u.lo u.hi v.lo v.hi) }
{
    if v.degree > 64 {
        return Err(refuse(Reason::DegreeHigh));
    }
    range_refusal(u.degree, u.count, us, u.lo, u.hi)?;
    range_refusal(v.degree, v.count, vs, v.lo, v.hi)
}

// The bounds of a valid surface.
fn bound_valid(
    u: Side,
    v: Side,
    uk: &[f64],
    vk: &[f64],
    points: &[f64],
    rational: bool,
    weights: &[f64],
) -> Result<NurbsBounds, Refusal>
    requires { (surface_refusal u.degree v.degree uk.now vk.now u.count v.count points.now rational weights.now).number ≡ 0 }
    ensures { result ≡ bounded_by u.degree v.degree (span_over u.degree u.count uk.now u.lo u.hi) (span_over v.degree v.count vk.now v.lo v.hi) uk.now vk.now u.count v.count points.now rational weights.now u.lo u.hi v.lo v.hi }
{
    let us = span_over(u.degree, u.count, uk, u.lo, u.hi);
    let vs = span_over(v.degree, v.count, vk, v.lo, v.hi);
    ranges_refusal(u, v, us, vs)?;
    answer_of(on_spans(u, v, us, vs, uk, vk, points, weights, rational))
}

// The bounds of a surface over a closed rectangle, which one rectangle of nonempty spans must contain. They hold the exact point and both its first derivatives at every pair of fractions. 28 and 29 are never given.
pub fn bound_surface(
    surface: Surface,
    u_lo: f64,
    u_hi: f64,
    v_lo: f64,
    v_hi: f64,
) -> Result<NurbsBounds, Refusal>
    ensures value { result ≡ across surface.entry surface_of u_lo u_hi v_lo v_hi }
    ensures surface_holds { across surface.entry SurfaceHolds u_lo u_hi v_lo v_hi result }
    ensures not_idle { NotIdle (bounded_refusal result).number }
{
    surface_refusal(surface)?;
    let u = Side {
        degree: surface.u_degree,
        count: surface.u_count,
        lo: u_lo,
        hi: u_hi,
    };
    let v = Side {
        degree: surface.v_degree,
        count: surface.v_count,
        lo: v_lo,
        hi: v_hi,
    };
    bound_valid(
        u,
        v,
        surface.u_knots,
        surface.v_knots,
        surface.points,
        surface.rational,
        surface.weights,
    )
}
