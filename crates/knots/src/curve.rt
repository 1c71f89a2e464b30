// Validation of a curve: refusals 30, 32, 1 to 10, in this order.
ghost use Rattle.std.specs.Prelude.{◌≡◌};
ghost use Rattle.knots.specs.Curve.{is_weight, all_weights, control_refusal, formed_refusal, any_long, curve_refusal};
ghost use Rattle.knots.specs.Placed.{control_placed};
ghost use Rattle.knots.specs.Refusal.{checked};
ghost use Rattle.knots.specs.Whole.{on};

use crate::knots::{all_finite, knot_refusal};
use crate::limits::over_long;
use crate::numbers::{all_fine, is_fine};
use crate::places::{bad_weight_at, non_finite_at};
use crate::refusal::{Reason, Refusal, refuse, refuse_at};

// A curve by its runs: the knots, the coordinates of the points (x, y, z of each) and, where it is rational, the weights. Nothing is asked of them. Weights count only where rational is true.
#[derive(Clone, Copy)]
pub struct Curve<'a> {
    pub degree: usize,
    pub knots: &'a [f64],
    pub points: &'a [f64],
    pub rational: bool,
    pub weights: &'a [f64],
}

// A weight is finite and above 0. NaN and both zeros are none.
pub fn is_weight(x: f64) -> bool
    ensures { result ≡ is_weight x }
{
    is_fine(x, true)
}

// Every number of the run is a weight.
pub fn all_weights(xs: &[f64]) -> bool
    ensures { result ≡ all_weights xs.now }
{
    all_fine(xs, true)
}

// The refusal of points and weights by its number, with the place of 8 and 10.
fn control_placed(number: u32, points: &[f64], weights: &[f64]) -> Refusal
    ensures { result ≡ control_placed number points.now weights.now }
{
    if number == 8 {
        return refuse_at(number, non_finite_at(points) / 3);
    }
    if number == 10 {
        return refuse_at(number, bad_weight_at(weights));
    }
    refuse(number)
}

// Refusals 8, 9, 10 of points and of the weights, where they are given. Not inlined: behind the many tests of a surface its walks were taken for seldom.
#[inline(never)]
pub fn control_refusal(
    count: usize,
    points: &[f64],
    rational: bool,
    weights: &[f64],
) -> Result<(), Refusal>
    ensures { result ≡ checked (control_refusal count points.now rational weights.now) }
{
    if !all_finite(points) {
        let number = Reason::PointNotFinite.number();
        return Err(control_placed(number, points, weights));
    }
    if !rational {
        return Ok(());
    }
    if weights.len() != count {
        return Err(refuse(Reason::WeightCount));
    }
    if !all_weights(weights) {
        let number = Reason::WeightBad.number();
        return Err(control_placed(number, points, weights));
    }
    Ok(())
}

// Refusals 1 to 10: what a curve that an edit forms is checked by again.
pub fn formed_refusal(
    degree: usize,
    count: usize,
    knots: &[f64],
    points: &[f64],
    rational: bool,
    weights: &[f64],
) -> Result<(), Refusal>
    ensures { result ≡ checked (formed_refusal degree count knots.now points.now rational weights.now) }
{
    knot_refusal(degree, count, knots)?;
    control_refusal(count, points, rational, weights)
}

// One of the runs is over its limit. Weights that are not given are not looked at.
pub fn any_long(knots: &[f64], points: &[f64], rational: bool, weights: &[f64]) -> bool
    ensures { result ≡ any_long knots.now points.now rational weights.now }
{
    if over_long(true, knots) {
        return true;
    }
    if over_long(true, points) {
        return true;
    }
    over_long(rational, weights)
}

// The refusal of a curve.
pub fn curve_refusal(curve: Curve) -> Result<(), Refusal>
    ensures { result ≡ checked (on curve.entry curve_refusal) }
{
    let Curve {
        degree,
        knots,
        points,
        rational,
        weights,
    } = curve;
    if any_long(knots, points, rational, weights) {
        return Err(refuse(Reason::LengthBad));
    }
    if points.len() % 3 != 0 {
        return Err(refuse(Reason::PointsUneven));
    }
    let count = points.len() / 3;
    formed_refusal(degree, count, knots, points, rational, weights)
}
