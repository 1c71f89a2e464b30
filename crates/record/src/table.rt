// A record read and validated.
ghost use Rattle.std.specs.Prelude.{◌≡◌, ◌≤◌, length, take};
ghost use Rattle.knots.specs.Refusal.{checked};
ghost use Rattle.knots.specs.Curve.{curve_refusal};
ghost use Rattle.record.specs.Reading.{rational};
ghost use Rattle.record.specs.Validated.{ReadsTable};

use crate::read::{Layout, is_rational, read_numbers};
use knots::clear::clear;
use knots::curve::curve_refusal;
use knots::refusal::Refusal;

// The curve of a record, by its layout and whether it is rational.
#[derive(Clone, Copy, Debug, PartialEq, Eq)]
pub struct Curve {
    pub layout: Layout,
    pub rational: bool,
}

// The curve's own refusal, of the numbers at the fronts of three runs.
fn layout_refusal(l: Layout, knots: &[f64], points: &[f64], weights: &[f64]) -> Result<(), Refusal>
    requires knots_in_bounds { l.knots ≤ length knots.now }
    requires points_in_bounds { l.points ≤ length points.now }
    requires weights_in_bounds { l.weights ≤ length weights.now }
    ensures { result ≡ checked (curve_refusal l.degree (take l.knots knots.now) (take l.points points.now) (rational l) (take l.weights weights.now)) }
{
    let k = l.knots;
    let n = l.points;
    let w = l.weights;
    curve_refusal(knots::curve::Curve {
        degree: l.degree,
        knots: &knots[..k],
        points: &points[..n],
        rational: is_rational(l),
        weights: &weights[..w],
    })
}

// The curve of a record into three lent runs: 33 before all else, then 30 for a run with too little room, then the curve's own refusal.
// What a run does not need, and all of it after a refusal, is +0.0.
pub fn read_table(
    s: &[u8],
    knots: &mut [f64],
    points: &mut [f64],
    weights: &mut [f64],
) -> Result<Curve, Refusal>
    ensures { ReadsTable s.now knots.old points.old weights.old knots.new points.new weights.new result }
{
    let layout = read_numbers(s, knots, points, weights)?;
    if let Err(refusal) = layout_refusal(layout, knots, points, weights) {
        clear(knots);
        clear(points);
        clear(weights);
        return Err(refusal);
    }
    Ok(Curve {
        layout,
        rational: is_rational(layout),
    })
}
