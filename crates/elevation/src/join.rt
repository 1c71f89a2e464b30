// The raised segments are joined to a curve, which is checked again.
ghost use Rattle.std.specs.Prelude.{◌≡◌, ◌+◌, ◌*◌, ◌<◌, ◌≤◌, length};
ghost use Rattle.edits.specs.Rows.{given};
ghost use Rattle.edits.specs.Passes.{row_of};
ghost use Rattle.elevation.specs.Breaks.{breaks_of};
ghost use Rattle.elevation.specs.Elevate.{extracted_count, raised_count};
ghost use Rattle.elevation.specs.Passes.{Joined};

use crate::put_knots::put_knots;
use crate::segments::put_segments;
use edits::work::front_refusal;
use knots::refusal::{Reason, Refusal, refuse};
use runs::vector::Vector;

// The curve of `count` points is formed of the controls in a run, which are relative to o: 20, and 1 to 10.
pub fn join(
    p: usize,
    e: usize,
    n: usize,
    count: usize,
    knots: &[f64],
    work: &[f64],
    o: Vector,
    rational: bool,
    out_knots: &mut [f64],
    out_points: &mut [f64],
    out_weights: &mut [f64],
) -> Result<(), Refusal>
    requires p_lt_n { (p < n) × (n < length knots.now) × (p ≤ e) × (e ≤ 64) }
    requires count_value { count ≡ raised_count p e knots.now (breaks_of p n knots.now) }
    requires knots_in_bounds { extracted_count p (breaks_of p n knots.now) * 4 ≤ length work.now }
    requires e_in_bounds { count + e + 1 ≤ length out_knots.old }
    requires count_in_bounds { count * 3 ≤ length out_points.old }
    requires count_in_bounds_2 { given rational count ≤ length out_weights.old }
    ensures { Joined p e n knots.now (breaks_of p n knots.now) rational (row_of rational work.now) o out_knots.old out_points.old out_weights.old out_knots.new out_points.new out_weights.new result }
{
    put_knots(p, e, n, knots, out_knots);
    if !put_segments(p, e, n, knots, work, o, rational, out_points, out_weights) {
        return Err(refuse(Reason::EditBad));
    }
    front_refusal(e, count, rational, out_knots, out_points, out_weights)
}
