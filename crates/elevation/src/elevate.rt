// A curve's degree is raised: the public call.
ghost use Rattle.std.specs.Prelude.{◌≡◌, length};
ghost use Rattle.knots.specs.Whole.{on};
ghost use Rattle.edits.specs.Passes.{OutMeets};
ghost use Rattle.elevation.specs.Whole.{elevate_start, elevated, ElevateMeets};

use crate::copy::copy_curve;
use crate::into::raise_into;
use crate::start::{elevate_start, elevated_count};
use edits::answer::FormedCurve;
use edits::work::clear_all;
use knots::clear::clear;
use knots::curve::Curve;
use knots::refusal::Refusal;

// A curve that keeps its degree is copied, another raised. What the outputs hold after a refusal is not said.
fn form(
    curve: Curve,
    raised: usize,
    out_knots: &mut [f64],
    out_points: &mut [f64],
    out_weights: &mut [f64],
    work: &mut [f64],
) -> Result<(), Refusal>
    requires { (on curve elevate_start raised (length out_knots.old) (length out_points.old) (length out_weights.old) (length work.old)).number ≡ 0 }
    ensures { OutMeets (length out_knots.old) (length out_points.old) (length out_weights.old) (on curve.entry elevated raised) out_knots.new out_points.new out_weights.new result }
{
    if raised == curve.degree {
        copy_curve(curve, out_knots, out_points, out_weights);
        return Ok(());
    }
    clear(out_knots);
    clear(out_points);
    clear(out_weights);
    raise_into(curve, raised, out_knots, out_points, out_weights, work)
}

// The curve of degree `raised` stands in the three outputs, +0.0 behind it; after a refusal they are +0.0. Scratch is left +0.0.
// A break keeps degree `raised` many knots, and one more where it was full before: no knot is removed.
pub fn elevate_degree(
    curve: Curve,
    raised: usize,
    out_knots: &mut [f64],
    out_points: &mut [f64],
    out_weights: &mut [f64],
    scratch: &mut [f64],
) -> Result<FormedCurve, Refusal>
    ensures { on curve.entry ElevateMeets raised (length out_knots.old) (length out_points.old) (length out_weights.old) (length scratch.old) out_knots.new out_points.new out_weights.new scratch.new result }
{
    let early = elevate_start(
        curve,
        raised,
        out_knots.len(),
        out_points.len(),
        out_weights.len(),
        scratch.len(),
    );
    if let Err(r) = early {
        clear_all(out_knots, out_points, out_weights, scratch);
        return Err(r);
    }
    let late = form(curve, raised, out_knots, out_points, out_weights, scratch);
    if let Err(r) = late {
        clear_all(out_knots, out_points, out_weights, scratch);
        return Err(r);
    }
    clear(scratch);
    let count = elevated_count(curve.degree, raised, curve.points.len() / 3, curve.knots);
    Ok(FormedCurve {
        degree: raised,
        count,
    })
}
