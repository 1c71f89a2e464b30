// Several knots inserted into a curve that stands in a lent run.
ghost use Rattle.std.specs.Prelude.{◌+◌, ◌*◌, ◌≤◌, length, replicate};
ghost use Rattle.knots.specs.Knots.{ValidKnots};
ghost use Rattle.insertion.specs.Fold.{insert_all};
ghost use Rattle.edits.specs.Work.{knots_from, points_from, weights_from};
ghost use Rattle.insertion.specs.Passes.{ListMeets};

use crate::one::insert_one;
use edits::rows::scale_in;
use knots::refusal::Refusal;

// Each knot goes into the curve that the one before it formed: all weights are divided by their largest anew, and the first point is the reference anew.
pub fn insert_all(
    p: usize,
    n: usize,
    rational: bool,
    inserted: &[f64],
    a: usize,
    work: &mut [f64],
) -> Result<(), Refusal>
    requires valid_knots { ValidKnots p n (knots_from a p n work.old) }
    requires inserted_bound { ((n + length inserted.now) * 4 ≤ a) × (a + (n + length inserted.now + p + 1) ≤ length work.old) }
    ensures { ListMeets a p (n + length inserted.now) rational work.old (insert_all p rational n (knots_from a p n work.old) (points_from n work.old) (weights_from rational n work.old) inserted.now) work.new result }
{
    for (i, &t) in inserted.iter().enumerate() {
        let scale = scale_in(n + i, rational, work);
        insert_one(p, n + i, scale, rational, t, a, work)?;
    }
    Ok(())
}

// One knot, m times.
pub fn insert_many(
    p: usize,
    n: usize,
    rational: bool,
    t: f64,
    m: usize,
    a: usize,
    work: &mut [f64],
) -> Result<(), Refusal>
    requires valid_knots { ValidKnots p n (knots_from a p n work.old) }
    requires m_bound { ((n + m) * 4 ≤ a) × (a + (n + m + p + 1) ≤ length work.old) }
    ensures { ListMeets a p (n + m) rational work.old (insert_all p rational n (knots_from a p n work.old) (points_from n work.old) (weights_from rational n work.old) (replicate m t)) work.new result }
{
    for j in 0..m {
        let scale = scale_in(n + j, rational, work);
        insert_one(p, n + j, scale, rational, t, a, work)?;
    }
    Ok(())
}
