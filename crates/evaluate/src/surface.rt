// Point and first partial derivatives of a surface: eval_surface in both modes, and its step for a surface that was validated before.
ghost use Rattle.std.specs.Prelude.{◌≡◌, true, ◌+◌, ◌-◌, ◌*◌, ◌/◌, ◌<◌, ◌≤◌, length};
ghost use Rattle.knots.specs.Span.{refusing, clamping};
ghost use Rattle.knots.specs.Shape.{surface_shape};
ghost use Rattle.knots.specs.Whole.{across};
ghost use Rattle.evaluate.specs.Surface.{NetReach, surface_quotient, surface_of, surface_found, surface_at_of, eval_surface_of};

use crate::net::{Net, net_scale, net_sums};
use crate::refusals::{surface_eval_refusal, surface_step_refusal};
use crate::sums::Sums;
use basis::ders::basis_derivatives;
use knots::refusal::Refusal;
use knots::span::{clamp, span_of};
use knots::surface::Surface;
use runs::points::point_at;
use runs::vector::Vector;

#[derive(Clone, Copy, Debug, PartialEq)]
pub struct SurfaceDerivs {
    pub point: Vector,
    pub du: Vector,
    pub dv: Vector,
}

// The point and the partial derivatives from the three sums, relative to o.
fn surface_quotient_of(o: Vector, a: Sums, d: Sums, e: Sums) -> SurfaceDerivs
    ensures { result ≡ surface_quotient o a d e }
{
    let x = a.x / a.w;
    let y = a.y / a.w;
    let z = a.z / a.w;
    let point = Vector {
        x: o.x + x,
        y: o.y + y,
        z: o.z + z,
    };
    let du = Vector {
        x: (d.x - x * d.w) / a.w,
        y: (d.y - y * d.w) / a.w,
        z: (d.z - z * d.w) / a.w,
    };
    let dv = Vector {
        x: (e.x - x * e.w) / a.w,
        y: (e.y - y * e.w) / a.w,
        z: (e.z - z * e.w) / a.w,
    };
    SurfaceDerivs { point, du, dv }
}

// At u and v in spans of the two directions.
fn surface_at(surface: Surface, s: usize, t: usize, u: f64, v: f64) -> SurfaceDerivs
    requires p_nonzero { 0 < surface.u_degree }
    requires q_nonzero { 0 < surface.v_degree }
    requires p_bound { surface.u_degree ≤ 64 }
    requires q_bound { surface.v_degree ≤ 64 }
    requires p_le_s { surface.u_degree ≤ s }
    requires q_le_t { surface.v_degree ≤ t }
    requires p_in_bounds { s + surface.u_degree < length surface.u_knots.now }
    requires q_in_bounds { t + surface.v_degree < length surface.v_knots.now }
    requires net_reach { NetReach (length surface.points.now / 3) surface.v_count (s - surface.u_degree) surface.u_degree (t - surface.v_degree) surface.v_degree }
    requires net_reach_2 { surface.rational ≡ true → NetReach (length surface.weights.now) surface.v_count (s - surface.u_degree) surface.u_degree (t - surface.v_degree) surface.v_degree }
    ensures { result ≡ across surface.entry (λ p q us vs m n ps g ws. surface_of p q us vs n ps g ws s t u v) }
{
    let Surface {
        points,
        rational,
        weights,
        ..
    } = surface;
    let p = surface.u_degree;
    let q = surface.v_degree;
    let mut bu = [0.0; 195];
    basis_derivatives(s, u, p, 1, surface.u_knots, &mut bu);
    let mut bv = [0.0; 195];
    basis_derivatives(t, v, q, 1, surface.v_knots, &mut bv);
    let columns = surface.v_count;
    let a = s - p;
    let b = t - q;
    let net = Net {
        columns,
        a,
        p,
        b,
        q,
    };
    let scale = net_scale(net, rational, weights);
    let corner = a * columns + b;
    let o = point_at(points, corner);
    let c = net_sums(0, 0, o, net, scale, points, rational, weights, &bu, &bv);
    let d = net_sums(1, 0, o, net, scale, points, rational, weights, &bu, &bv);
    let e = net_sums(0, 1, o, net, scale, points, rational, weights, &bu, &bv);
    surface_quotient_of(o, c, d, e)
}

// The point and the first partial derivatives at u and v of runs that fit each other, on the spans that the search finds.
fn surface_found(surface: Surface, u: f64, v: f64) -> SurfaceDerivs
    requires p_bound { surface.u_degree ≤ 64 }
    requires q_bound { surface.v_degree ≤ 64 }
    requires weights_value { (across surface surface_shape).number ≡ 0 }
    ensures { result ≡ across surface.entry surface_found u v }
{
    let s = span_of(surface.u_degree, surface.u_count, u, surface.u_knots);
    let x = clamp(surface.u_degree, surface.u_count, u, surface.u_knots);
    let t = span_of(surface.v_degree, surface.v_count, v, surface.v_knots);
    let y = clamp(surface.v_degree, surface.v_count, v, surface.v_knots);
    surface_at(surface, s, t, x, y)
}

// The step of eval_surface, on a surface that was validated before: only lengths, the degrees, u, v and the domains' ends are tested.
pub fn eval_surface_at(surface: Surface, u: f64, v: f64) -> Result<SurfaceDerivs, Refusal>
    ensures { result ≡ across surface.entry (surface_at_of refusing) u v }
{
    surface_step_refusal(false, surface, u, v)?;
    Ok(surface_found(surface, u, v))
}

// The point and the first partial derivatives of a surface, or a refusal: 43 where u or v lies outside the domain.
pub fn eval_surface(surface: Surface, u: f64, v: f64) -> Result<SurfaceDerivs, Refusal>
    ensures { result ≡ across surface.entry (eval_surface_of refusing) u v }
{
    surface_eval_refusal(false, surface, u, v)?;
    Ok(surface_found(surface, u, v))
}

// The same, where finite parameters outside the domain become the nearer ends.
pub fn eval_surface_clamped(surface: Surface, u: f64, v: f64) -> Result<SurfaceDerivs, Refusal>
    ensures { result ≡ across surface.entry (eval_surface_of clamping) u v }
{
    surface_eval_refusal(true, surface, u, v)?;
    Ok(surface_found(surface, u, v))
}
