// A curve that keeps its degree is copied.
ghost use Rattle.std.specs.Prelude.{◌≡◌, true, ◌≤◌, length};
ghost use Rattle.runs.specs.Lent.{padded};
ghost use Rattle.edits.specs.Whole.{given_of};

use knots::clear::clear;
use knots::curve::Curve;
use runs::copy::copy_run;

// The curve goes to three runs, +0.0 behind it; weights that are not given are not copied.
pub fn copy_curve(
    curve: Curve,
    out_knots: &mut [f64],
    out_points: &mut [f64],
    out_weights: &mut [f64],
)
    requires knots_in_bounds { (length curve.knots.now ≤ length out_knots.old) × (length curve.points.now ≤ length out_points.old) }
    requires weights_in_bounds { curve.rational ≡ true → length curve.weights.now ≤ length out_weights.old }
    ensures { (out_knots.new ≡ padded (length out_knots.old) curve.entry.knots.now) × (out_points.new ≡ padded (length out_points.old) curve.entry.points.now) × (out_weights.new ≡ padded (length out_weights.old) (given_of curve.entry.rational curve.entry.weights.now)) }
{
    copy_run(curve.knots, out_knots);
    copy_run(curve.points, out_points);
    if curve.rational {
        copy_run(curve.weights, out_weights);
    } else {
        clear(out_weights);
    }
}
