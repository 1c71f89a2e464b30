// A clamped curve in a lent run becomes one of Bezier segments.
ghost use Rattle.std.specs.Prelude.{◌+◌, ◌-◌, ◌*◌, ◌<◌, ◌≤◌, length};
ghost use Rattle.knots.specs.Knots.{ValidKnots};
ghost use Rattle.insertion.specs.Fold.{insert_all};
ghost use Rattle.edits.specs.Work.{knots_from, points_from, weights_from};
ghost use Rattle.elevation.specs.Breaks.{breaks_of, missing_all};
ghost use Rattle.elevation.specs.Passes.{Extracted};

use crate::inner::Breaks;
use edits::counts::missing;
use insertion::times::insert_times;
use knots::refusal::Refusal;

// Each break is inserted until it is full; the curve stands in `work`, its knots from place a on. `knots` are those that it has at first.
pub fn extract(
    p: usize,
    n: usize,
    knots: &[f64],
    rational: bool,
    a: usize,
    work: &mut [f64],
) -> Result<(), Refusal>
    requires p_lt_n { (p < n) × (n ≤ length knots.now) }
    requires valid_knots { ValidKnots p n (knots_from a p n work.old) }
    requires knots_bound { (n + length (missing_all p knots.now (breaks_of p n knots.now))) * 4 ≤ a }
    requires p_in_bounds { a + (n + length (missing_all p knots.now (breaks_of p n knots.now)) + p + 1) ≤ length work.old }
    ensures { Extracted p rational (n + length (missing_all p knots.now (breaks_of p n knots.now))) a (insert_all p rational n (knots_from a p n work.old) (points_from n work.old) (weights_from rational n work.old) (missing_all p knots.now (breaks_of p n knots.now))) work.new result }
{
    let mut count = n;
    for t in Breaks::new(p, n, knots) {
        let m = missing(p + 1, knots, t);
        insert_times(p, count, rational, t, m, a, work)?;
        count += m;
    }
    Ok(())
}
