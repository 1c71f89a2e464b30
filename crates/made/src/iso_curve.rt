// An isoparametric curve of a surface, in lent runs, and the knots that belong to it.
ghost use Rattle.std.specs.Prelude.{◌≡◌, true, false, cond, ℕ, ◌*◌, ◌/◌, ◌<◌, ◌≤◌, length};
ghost use Rattle.knots.specs.Clear.{zeros};
ghost use Rattle.knots.specs.Knots.{ValidKnots};
ghost use Rattle.knots.specs.Refusal.{checked};
ghost use Rattle.knots.specs.Whole.{across};
ghost use Rattle.made.specs.Iso.{place_of};
ghost use Rattle.made.specs.IsoCurve.{side_from, hull_of, iso_side, iso_hull, iso_outside, along_start, iso_start, AlongDone, IsoMeets};

use crate::front::{clear_two, made_refusal};
use crate::iso::{Strip, iso_fill};
use basis::ders::basis_derivatives;
use evaluate::refusals::degrees_refusal;
use interval::float::is_finite;
use knots::curve::Curve;
use knots::refusal::{Reason, Refusal, refuse};
use knots::shape::room_refusal;
use knots::span::{is_outside, span_of};
use knots::surface::{Surface, surface_refusal};

// The knots of the isocurve: the caller's own run of the other direction.
pub fn iso_knots<'a>(constant_u: bool, u_knots: &'a [f64], v_knots: &'a [f64]) -> &'a [f64]
    ensures { result ≡ cond constant_u v_knots.entry u_knots.entry }
{
    if constant_u { v_knots } else { u_knots }
}

// The direction that t fixes, and the other, which is the isocurve's.
#[derive(Clone, Copy, Debug, PartialEq)]
struct Held {
    constant_u: bool,
    t: f64,
    degree: usize,
    count: usize,
    columns: usize,
    other_degree: usize,
    other_count: usize,
}

// t is not finite, or lies outside the domain.
fn iso_outside(degree: usize, count: usize, knots: &[f64], t: f64) -> bool
    ensures { result ≡ iso_outside degree count knots.now t }
{
    !is_finite(t) || is_outside(degree, count, knots, t)
}

// Refusals 22 and 30 along one direction, for an isocurve of c points and outputs of a and b numbers.
fn along_start(
    degree: usize,
    count: usize,
    knots: &[f64],
    t: f64,
    c: usize,
    a: usize,
    b: usize,
) -> Result<(), Refusal>
    requires { c ≤ 1048576 }
    ensures { result ≡ checked (along_start degree count knots.now t c a b) }
{
    if iso_outside(degree, count, knots, t) {
        return Err(refuse(Reason::IsoOutside));
    }
    room_refusal(a, c * 3)?;
    room_refusal(b, c)
}

// The refusal before anything is formed: the surface's, 31, 22, 30 for outputs of a and b numbers.
fn iso_start(surface: Surface, constant_u: bool, t: f64, a: usize, b: usize) -> Result<(), Refusal>
    ensures { result ≡ checked (across surface.entry iso_start constant_u t a b) }
{
    let p = surface.u_degree;
    let q = surface.v_degree;
    let m = surface.u_count;
    let n = surface.v_count;
    surface_refusal(surface)?;
    degrees_refusal(p, q)?;
    if constant_u {
        return along_start(p, m, surface.u_knots, t, n, a, b);
    }
    along_start(q, n, surface.v_knots, t, m, a, b)
}

// The isocurve along one direction of a valid surface into cleared runs, with 23 for the first point that has no weight, or its refusal by 1 to 10.
fn iso_along(
    surface: Surface,
    held: Held,
    fixed: &[f64],
    other: &[f64],
    out_points: &mut [f64],
    out_weights: &mut [f64],
) -> Result<(), Refusal>
    requires degree_bound { held.degree ≤ 64 }
    requires valid_knots { ValidKnots held.degree held.count fixed.now }
    requires t_value { iso_outside held.degree held.count fixed.now held.t ≡ false }
    requires by_index { (i : ℕ) → i < held.count → (k : ℕ) → k < held.other_count → place_of held.constant_u held.columns i k < length surface.points.now / 3 }
    requires k_in_bounds { surface.rational ≡ true → (i : ℕ) → i < held.count → (k : ℕ) → k < held.other_count → place_of held.constant_u held.columns i k < length surface.weights.now }
    requires other_count_in_bounds { held.other_count * 3 ≤ length out_points.old }
    requires other_count_in_bounds_2 { held.other_count ≤ length out_weights.old }
    requires other_count_bound { held.other_count ≤ 1048576 }
    requires out_points_value { out_points.old ≡ zeros (length out_points.old) }
    requires out_weights_value { out_weights.old ≡ zeros (length out_weights.old) }
    ensures { AlongDone (hull_of surface.entry.points.now surface.entry.rational surface.entry.weights.now held.columns held.constant_u (side_from held.degree held.count fixed.now held.other_degree held.other_count other.now) held.t) (side_from held.degree held.count fixed.now held.other_degree held.other_count other.now) (length out_points.old) (length out_weights.old) out_points.new out_weights.new result }
{
    let p = held.degree;
    let count = held.other_count;
    let span = span_of(p, held.count, held.t, fixed);
    let mut ders = [0.0; 195];
    basis_derivatives(span, held.t, p, 0, fixed, &mut ders);
    let strip = Strip {
        constant_u: held.constant_u,
        columns: held.columns,
        first: span - p,
        p,
    };
    let good = iso_fill(
        count,
        strip,
        surface.points,
        surface.rational,
        surface.weights,
        &ders,
        out_points,
        out_weights,
    );
    if !good {
        return Err(refuse(Reason::IsoWeightBad));
    }
    let formed = Curve {
        degree: held.other_degree,
        knots: other,
        points: out_points,
        rational: true,
        weights: out_weights,
    };
    made_refusal(formed, count, other.len(), count * 3, count)
}

// The isocurve along u or along v, where nothing was refused before.
fn iso_into(
    surface: Surface,
    constant_u: bool,
    t: f64,
    out_points: &mut [f64],
    out_weights: &mut [f64],
) -> Result<(), Refusal>
    requires out_weights_value { (across surface iso_start constant_u t (length out_points.old) (length out_weights.old)).number ≡ 0 }
    requires out_points_value { out_points.old ≡ zeros (length out_points.old) }
    requires out_weights_value_2 { out_weights.old ≡ zeros (length out_weights.old) }
    ensures { AlongDone (across surface.entry iso_hull constant_u t) (across surface.entry iso_side constant_u t) (length out_points.old) (length out_weights.old) out_points.new out_weights.new result }
{
    let us = surface.u_knots;
    let vs = surface.v_knots;
    if constant_u {
        let held = Held {
            constant_u: true,
            t,
            degree: surface.u_degree,
            count: surface.u_count,
            columns: surface.v_count,
            other_degree: surface.v_degree,
            other_count: surface.v_count,
        };
        return iso_along(surface, held, us, vs, out_points, out_weights);
    }
    let held = Held {
        constant_u: false,
        t,
        degree: surface.v_degree,
        count: surface.v_count,
        columns: surface.v_count,
        other_degree: surface.u_degree,
        other_count: surface.u_count,
    };
    iso_along(surface, held, vs, us, out_points, out_weights)
}

// The isocurve of a surface at t of u, or of v, in lent runs: its points and weights. Its knots are those that `iso_knots` hands back.
pub fn iso_curve(
    surface: Surface,
    constant_u: bool,
    t: f64,
    out_points: &mut [f64],
    out_weights: &mut [f64],
) -> Result<(), Refusal>
    ensures { across surface.entry IsoMeets constant_u t (length out_points.old) (length out_weights.old) out_points.new out_weights.new result }
{
    let a = out_points.len();
    let b = out_weights.len();
    clear_two(out_points, out_weights);
    iso_start(surface, constant_u, t, a, b)?;
    let formed = iso_into(surface, constant_u, t, out_points, out_weights);
    if formed.is_err() {
        clear_two(out_points, out_weights);
    }
    formed
}
