// Refusals that the lengths of the runs and the degree show: no number of a run is read.
ghost use Rattle.std.specs.Prelude.{◌≡◌};
ghost use Rattle.knots.specs.Refusal.{checked};
ghost use Rattle.knots.specs.Shape.{degree_refusal, room_refusal, weight_shape, knot_shape, curve_shape, surface_shape};
ghost use Rattle.knots.specs.Whole.{on, across};

use crate::curve::Curve;
use crate::limits::{is_product, is_sum};
use crate::refusal::{Reason, Refusal, along, refuse};
use crate::surface::Surface;

// 31
pub fn degree_refusal(degree: usize) -> Result<(), Refusal>
    ensures { result ≡ checked (degree_refusal degree) }
{
    if degree > 64 {
        return Err(refuse(Reason::DegreeHigh));
    }
    Ok(())
}

// 30: a lent run of so many numbers is smaller than what it must hold.
pub fn room_refusal(have: usize, need: usize) -> Result<(), Refusal>
    ensures { result ≡ checked (room_refusal have need) }
{
    if have < need {
        return Err(refuse(Reason::LengthBad));
    }
    Ok(())
}

// 9
pub fn weight_shape(count: usize, rational: bool, weights: &[f64]) -> Result<(), Refusal>
    ensures { result ≡ checked (weight_shape count rational weights.now) }
{
    if !rational {
        return Ok(());
    }
    if weights.len() != count {
        return Err(refuse(Reason::WeightCount));
    }
    Ok(())
}

// 1, 2, 3
pub fn knot_shape(degree: usize, count: usize, knots: &[f64]) -> Result<(), Refusal>
    ensures { result ≡ checked (knot_shape degree count knots.now) }
{
    if degree == 0 {
        return Err(refuse(Reason::DegreeZero));
    }
    if count <= degree {
        return Err(refuse(Reason::FewPoints));
    }
    if !is_sum(knots.len(), count, degree) {
        return Err(refuse(Reason::KnotCount));
    }
    Ok(())
}

// 32, then 1, 2, 3, then 9
pub fn curve_shape(curve: Curve) -> Result<(), Refusal>
    ensures { result ≡ checked (on curve.entry curve_shape) }
{
    if curve.points.len() % 3 != 0 {
        return Err(refuse(Reason::PointsUneven));
    }
    let count = curve.points.len() / 3;
    knot_shape(curve.degree, count, curve.knots)?;
    weight_shape(count, curve.rational, curve.weights)
}

// 32, 11, then 1, 2, 3 of u and of v, then 9
pub fn surface_shape(surface: Surface) -> Result<(), Refusal>
    ensures { result ≡ checked (across surface.entry surface_shape) }
{
    if surface.points.len() % 3 != 0 {
        return Err(refuse(Reason::PointsUneven));
    }
    let count = surface.points.len() / 3;
    if !is_product(count, surface.u_count, surface.v_count) {
        return Err(refuse(Reason::NetSize));
    }
    let u = knot_shape(surface.u_degree, surface.u_count, surface.u_knots);
    along(0, u)?;
    let v = knot_shape(surface.v_degree, surface.v_count, surface.v_knots);
    along(1, v)?;
    weight_shape(count, surface.rational, surface.weights)
}
