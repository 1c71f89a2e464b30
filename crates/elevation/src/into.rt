// The raised curve goes to the outputs.
ghost use Rattle.std.specs.Prelude.{◌≡◌, ◌+◌, ◌*◌, ◌/◌, ◌<◌, ◌≤◌, length};
ghost use Rattle.knots.specs.Clear.{zeros};
ghost use Rattle.knots.specs.Whole.{on};
ghost use Rattle.edits.specs.Rows.{given};
ghost use Rattle.edits.specs.Whole.{given_of};
ghost use Rattle.edits.specs.Passes.{OutMeets};
ghost use Rattle.edits.specs.Work.{points_from, weights_from};
ghost use Rattle.elevation.specs.Breaks.{breaks_of};
ghost use Rattle.elevation.specs.Elevate.{extracted_count, raised_count, raise_all};
ghost use Rattle.elevation.specs.Whole.{elevate_start};
ghost use Rattle.elevation.specs.Passes.{Raised};

use crate::extract::extract;
use crate::join::join;
use crate::start::elevated_count;
use crate::walk::break_count;
use edits::rows::{lift_in, row_at, scale_in, vector_of};
use edits::work::lay_curve;
use knots::curve::Curve;
use knots::refusal::Refusal;

// The extracted curve of m points, which stands in a run, is raised: 19, 20, and 1 to 10 of the curve that is formed.
fn raise_extracted(
    p: usize,
    e: usize,
    n: usize,
    m: usize,
    knots: &[f64],
    rational: bool,
    out_knots: &mut [f64],
    out_points: &mut [f64],
    out_weights: &mut [f64],
    work: &mut [f64],
) -> Result<(), Refusal>
    requires p_lt_n { (p < n) × (n < length knots.now) × (n ≤ 1048576) × (p < e) × (e ≤ 64) }
    requires m_value { (m ≡ extracted_count p (breaks_of p n knots.now)) × (m * 4 ≤ length work.old) }
    requires e_in_bounds { raised_count p e knots.now (breaks_of p n knots.now) + e + 1 ≤ length out_knots.old }
    requires knots_in_bounds { raised_count p e knots.now (breaks_of p n knots.now) * 3 ≤ length out_points.old }
    requires knots_in_bounds_2 { given rational (raised_count p e knots.now (breaks_of p n knots.now)) ≤ length out_weights.old }
    ensures { Raised p e n knots.now (breaks_of p n knots.now) rational (points_from m work.old) (weights_from rational m work.old) out_knots.old out_points.old out_weights.old out_knots.new out_points.new out_weights.new result }
{
    let o = vector_of(row_at(rational, work, 0));
    let scale = scale_in(m, rational, work);
    lift_in(m, scale, rational, work)?;
    let count = elevated_count(p, e, n, knots);
    join(
        p,
        e,
        n,
        count,
        knots,
        work,
        o,
        rational,
        out_knots,
        out_points,
        out_weights,
    )
}

// The curve goes into scratch, its breaks are made full there, and what is raised of it goes to the outputs, which are +0.0.
pub fn raise_into(
    curve: Curve,
    raised: usize,
    out_knots: &mut [f64],
    out_points: &mut [f64],
    out_weights: &mut [f64],
    work: &mut [f64],
) -> Result<(), Refusal>
    requires work_value { (on curve elevate_start raised (length out_knots.old) (length out_points.old) (length out_weights.old) (length work.old)).number ≡ 0 }
    requires fact { raised ≡ curve.degree → ⊥ }
    requires out_knots_value { (out_knots.old ≡ zeros (length out_knots.old)) × (out_points.old ≡ zeros (length out_points.old)) × (out_weights.old ≡ zeros (length out_weights.old)) }
    ensures { OutMeets (length out_knots.old) (length out_points.old) (length out_weights.old) (on curve.entry (λ p ks ps g ws. raise_all p raised (length ps / 3) ks ps g (given_of g ws) (breaks_of p (length ps / 3) ks))) out_knots.new out_points.new out_weights.new result }
{
    let Curve {
        degree,
        knots,
        rational,
        ..
    } = curve;
    let n = curve.points.len() / 3;
    let breaks = break_count(degree, n, knots);
    let m = (degree + 1) * (breaks + 1);
    let a = m * 4;
    lay_curve(curve, a, work)?;
    extract(degree, n, knots, rational, a, work)?;
    raise_extracted(
        degree,
        raised,
        n,
        m,
        knots,
        rational,
        out_knots,
        out_points,
        out_weights,
        work,
    )
}
