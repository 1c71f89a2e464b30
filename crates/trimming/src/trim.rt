// A curve cut to a part of its domain: the public call.
ghost use Rattle.std.specs.Prelude.{◌+◌, ◌*◌, ◌/◌, ◌≤◌, length};
ghost use Rattle.knots.specs.Curve.{ValidCurve};
ghost use Rattle.knots.specs.Whole.{on};
ghost use Rattle.edits.specs.Counts.{below_of, missing_of};
ghost use Rattle.edits.specs.Rows.{given};
ghost use Rattle.insertion.specs.Fold.{insert_all};
ghost use Rattle.edits.specs.Whole.{given_of};
ghost use Rattle.edits.specs.Passes.{OutMeets};
ghost use Rattle.trimming.specs.Trim.{kept_of, ends_of, cut_of, TrimMeets};

use crate::cut::{cut, insert_ends};
use crate::start::{kept, trim_start};
use edits::answer::FormedCurve;
use edits::counts::{below, missing};
use edits::work::clear_all;
use knots::clear::clear;
use knots::curve::Curve;
use knots::refusal::Refusal;

// Both ends are inserted in scratch, and what lies between goes to the outputs.
fn trim_into(
    curve: Curve,
    lo: f64,
    hi: f64,
    out_knots: &mut [f64],
    out_points: &mut [f64],
    out_weights: &mut [f64],
    work: &mut [f64],
) -> Result<(), Refusal>
    requires valid_curve { on curve ValidCurve }
    requires lo_bound { below_of curve.knots.now lo ≤ below_of curve.knots.now hi }
    requires degree_in_bounds { kept_of curve.degree curve.knots.now lo hi + curve.degree + 1 ≤ length out_knots.old }
    requires hi_in_bounds { kept_of curve.degree curve.knots.now lo hi * 3 ≤ length out_points.old }
    requires hi_in_bounds_2 { given curve.rational (kept_of curve.degree curve.knots.now lo hi) ≤ length out_weights.old }
    requires degree_in_bounds_2 { 10 * (length curve.points.now / 3 + (missing_of curve.degree curve.knots.now lo + missing_of curve.degree curve.knots.now hi)) + 2 * (curve.degree + 1) ≤ length work.old }
    ensures { OutMeets (length out_knots.old) (length out_points.old) (length out_weights.old) (on curve.entry (λ p ks ps g ws. cut_of p g (below_of ks lo) (kept_of p ks lo hi) (insert_all p g (length ps / 3) ks ps (given_of g ws) (ends_of p ks lo hi)))) out_knots.new out_points.new out_weights.new result }
{
    let Curve {
        degree,
        knots,
        points,
        rational,
        ..
    } = curve;
    let x = missing(degree + 1, knots, lo);
    let y = missing(degree + 1, knots, hi);
    let a = (points.len() / 3 + (x + y)) * 4;
    insert_ends(curve, lo, hi, a, work)?;
    let f = below(knots, lo);
    let m = kept(degree, knots, lo, hi);
    cut(
        degree,
        m,
        f,
        rational,
        a,
        work,
        out_knots,
        out_points,
        out_weights,
    )
}

// The part from lo to hi stands in the three outputs, +0.0 behind it; at a full break each new end is the limit from inside. After a refusal they are +0.0. Scratch is left +0.0.
pub fn trim(
    curve: Curve,
    lo: f64,
    hi: f64,
    out_knots: &mut [f64],
    out_points: &mut [f64],
    out_weights: &mut [f64],
    scratch: &mut [f64],
) -> Result<FormedCurve, Refusal>
    ensures { on curve.entry TrimMeets lo hi (length out_knots.old) (length out_points.old) (length out_weights.old) (length scratch.old) out_knots.new out_points.new out_weights.new scratch.new result }
{
    let a = out_knots.len();
    let b = out_points.len();
    let c = out_weights.len();
    let d = scratch.len();
    let early = trim_start(curve, lo, hi, a, b, c, d);
    if let Err(r) = early {
        clear_all(out_knots, out_points, out_weights, scratch);
        return Err(r);
    }
    let late = trim_into(curve, lo, hi, out_knots, out_points, out_weights, scratch);
    if let Err(r) = late {
        clear_all(out_knots, out_points, out_weights, scratch);
        return Err(r);
    }
    clear(scratch);
    let count = kept(curve.degree, curve.knots, lo, hi);
    Ok(FormedCurve {
        degree: curve.degree,
        count,
    })
}
