// Knots inserted into a curve: the public call.
ghost use Rattle.std.specs.Prelude.{◌+◌, ◌*◌, ◌/◌, ◌≤◌, length};
ghost use Rattle.knots.specs.Curve.{ValidCurve};
ghost use Rattle.knots.specs.Whole.{on};
ghost use Rattle.edits.specs.Rows.{given};
ghost use Rattle.insertion.specs.Fold.{insert_all};
ghost use Rattle.edits.specs.Whole.{given_of};
ghost use Rattle.insertion.specs.Whole.{InsertMeets};
ghost use Rattle.edits.specs.Passes.{OutMeets};

use crate::list::insert_all;
use crate::start::insert_start;
use edits::answer::FormedCurve;
use edits::work::{clear_all, lay_curve, take_curve};
use knots::curve::Curve;
use knots::refusal::Refusal;
use runs::copy::clear_from;

// The curve goes into scratch, the knots are inserted there, and what is formed goes to the outputs.
fn insert_into(
    curve: Curve,
    inserted: &[f64],
    out_knots: &mut [f64],
    out_points: &mut [f64],
    out_weights: &mut [f64],
    work: &mut [f64],
) -> Result<(), Refusal>
    requires valid_curve { on curve ValidCurve }
    requires degree_in_bounds { length curve.points.now / 3 + length inserted.now + curve.degree + 1 ≤ length out_knots.old }
    requires inserted_in_bounds { (length curve.points.now / 3 + length inserted.now) * 3 ≤ length out_points.old }
    requires inserted_in_bounds_2 { given curve.rational (length curve.points.now / 3 + length inserted.now) ≤ length out_weights.old }
    requires degree_in_bounds_2 { 10 * (length curve.points.now / 3 + length inserted.now) + 2 * (curve.degree + 1) ≤ length work.old }
    ensures { OutMeets (length out_knots.old) (length out_points.old) (length out_weights.old) (on curve.entry (λ p ks ps g ws. insert_all p g (length ps / 3) ks ps (given_of g ws) inserted.now)) out_knots.new out_points.new out_weights.new result }
{
    let n = curve.points.len() / 3;
    let m = n + inserted.len();
    let a = m * 4;
    lay_curve(curve, a, work)?;
    insert_all(curve.degree, n, curve.rational, inserted, a, work)?;
    take_curve(
        curve.degree,
        m,
        0,
        curve.rational,
        a,
        work,
        out_knots,
        out_points,
        out_weights,
    )
}

// The knots are inserted one by one, and the curve that is formed stands in the three outputs, +0.0 behind it. After a refusal, also one halfway through the list, they are +0.0. Scratch is left +0.0.
pub fn insert_knots(
    curve: Curve,
    inserted: &[f64],
    out_knots: &mut [f64],
    out_points: &mut [f64],
    out_weights: &mut [f64],
    scratch: &mut [f64],
) -> Result<FormedCurve, Refusal>
    ensures { on curve.entry InsertMeets inserted.now (length out_knots.old) (length out_points.old) (length out_weights.old) (length scratch.old) out_knots.new out_points.new out_weights.new scratch.new result }
{
    let a = out_knots.len();
    let b = out_points.len();
    let c = out_weights.len();
    let d = scratch.len();
    let early = insert_start(curve, inserted, a, b, c, d);
    if let Err(r) = early {
        clear_all(out_knots, out_points, out_weights, scratch);
        return Err(r);
    }
    let late = insert_into(curve, inserted, out_knots, out_points, out_weights, scratch);
    if let Err(r) = late {
        clear_all(out_knots, out_points, out_weights, scratch);
        return Err(r);
    }
    clear_from(scratch, 0);
    let count = curve.points.len() / 3 + inserted.len();
    Ok(FormedCurve {
        degree: curve.degree,
        count,
    })
}
