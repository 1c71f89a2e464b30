// Both ends are inserted in scratch, and what lies between goes to the outputs.
ghost use Rattle.std.specs.Prelude.{◌≡◌, ◌+◌, ◌*◌, ◌/◌, ◌≤◌, length, drop};
ghost use Rattle.knots.specs.Refusal.{checked};
ghost use Rattle.knots.specs.Curve.{ValidCurve};
ghost use Rattle.knots.specs.Whole.{on};
ghost use Rattle.edits.specs.Counts.{missing_of};
ghost use Rattle.edits.specs.Rows.{given};
ghost use Rattle.insertion.specs.Fold.{insert_all};
ghost use Rattle.edits.specs.Whole.{given_of};
ghost use Rattle.edits.specs.Work.{knots_from, points_from, weights_from, refusal_of, work_in};
ghost use Rattle.trimming.specs.Trim.{ends_of};
ghost use Rattle.trimming.specs.Passes.{CutDone};

use edits::counts::missing;
use edits::work::{front_refusal, lay_curve, take_curve};
use insertion::times::insert_times;
use knots::curve::Curve;
use knots::refusal::Refusal;

// The curve goes into scratch, its knots to place a, and both ends are inserted there.
pub fn insert_ends(
    curve: Curve,
    lo: f64,
    hi: f64,
    a: usize,
    work: &mut [f64],
) -> Result<(), Refusal>
    requires valid_curve { on curve ValidCurve }
    requires hi_bound { ((length curve.points.now / 3 + (missing_of curve.degree curve.knots.now lo + missing_of curve.degree curve.knots.now hi)) * 4 ≤ a) × (a + (length curve.points.now / 3 + (missing_of curve.degree curve.knots.now lo + missing_of curve.degree curve.knots.now hi) + curve.degree + 1) ≤ length work.old) }
    ensures value { result ≡ checked (refusal_of (on curve.entry (λ p ks ps g ws. insert_all p g (length ps / 3) ks ps (given_of g ws) (ends_of p ks lo hi)))) }
    ensures work_after { work.new ≡ work_in a curve.entry.rational work.old (on curve.entry (λ p ks ps g ws. insert_all p g (length ps / 3) ks ps (given_of g ws) (ends_of p ks lo hi))) }
{
    let Curve {
        degree,
        knots,
        rational,
        ..
    } = curve;
    let n = curve.points.len() / 3;
    let x = missing(degree + 1, knots, lo);
    let y = missing(degree + 1, knots, hi);
    lay_curve(curve, a, work)?;
    insert_times(degree, n, rational, lo, x, a, work)?;
    insert_times(degree, n + x, rational, hi, y, a, work)
}

// The m points from place f on go to the outputs, and are checked there.
pub fn cut(
    p: usize,
    m: usize,
    f: usize,
    rational: bool,
    a: usize,
    work: &[f64],
    knots: &mut [f64],
    points: &mut [f64],
    weights: &mut [f64],
) -> Result<(), Refusal>
    requires m_bound { ((f + m) * 4 ≤ a) × (a + (f + m + p + 1) ≤ length work.now) }
    requires p_in_bounds { m + p + 1 ≤ length knots.old }
    requires m_in_bounds { m * 3 ≤ length points.old }
    requires m_in_bounds_2 { given rational m ≤ length weights.old }
    ensures { CutDone p m rational (knots_from (a + f) p m work.now) (points_from m (drop (f * 4) work.now)) (weights_from rational m (drop (f * 4) work.now)) (length knots.old) (length points.old) (length weights.old) knots.new points.new weights.new result }
{
    take_curve(p, m, f, rational, a, work, knots, points, weights)?;
    front_refusal(p, m, rational, knots, points, weights)
}
