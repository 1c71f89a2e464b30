// One knot inserted many times into a curve that stands in a lent run, for other edits.
ghost use Rattle.std.specs.Prelude.{◌≡◌};
ghost use Rattle.knots.specs.Refusal.{checked};
ghost use Rattle.edits.specs.Work.{refusal_of, work_in};
ghost use Rattle.insertion.specs.Times.{times_start, times_outcome};

use crate::list::insert_many;
use edits::work::work_room;
use knots::clear::clear;
use knots::knots::knot_refusal;
use knots::refusal::{Reason, Refusal, refuse};

// 30, and 1 to 7 of the knots that stand in the run.
fn times_start(p: usize, n: usize, m: usize, a: usize, work: &[f64]) -> Result<(), Refusal>
    ensures { result ≡ checked (times_start p n m a work.now) }
{
    let l = work.len();
    if a > l {
        return Err(refuse(Reason::LengthBad));
    }
    if n > a {
        return Err(refuse(Reason::LengthBad));
    }
    if m > a {
        return Err(refuse(Reason::LengthBad));
    }
    if p > l {
        return Err(refuse(Reason::LengthBad));
    }
    work_room(n + m, n + m + p + 1, a, l)?;
    let end = a + (n + p + 1);
    knot_refusal(p, n, &work[a..end])
}

// The knot t is inserted m times into the curve of n points that stands in a run.
pub fn insert_times(
    p: usize,
    n: usize,
    rational: bool,
    t: f64,
    m: usize,
    a: usize,
    work: &mut [f64],
) -> Result<(), Refusal>
    ensures value { result ≡ checked (refusal_of (times_outcome p n m a work.old rational t)) }
    ensures work_after { work.new ≡ work_in a rational work.old (times_outcome p n m a work.old rational t) }
{
    if let Err(r) = times_start(p, n, m, a, work) {
        clear(work);
        return Err(r);
    }
    if let Err(r) = insert_many(p, n, rational, t, m, a, work) {
        clear(work);
        return Err(r);
    }
    Ok(())
}
