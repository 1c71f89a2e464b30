// One knot inserted into a curve that stands in a lent run.
ghost use Rattle.std.specs.Prelude.{◌≡◌, ◌+◌, ◌*◌, ◌<◌, ◌≤◌, length};
ghost use Rattle.knots.specs.Refusal.{checked};
ghost use Rattle.knots.specs.Knots.{ValidKnots};
ghost use Rattle.insertion.specs.Insert.{more_knots, inside, spot_refusal};
ghost use Rattle.edits.specs.Work.{knots_from, points_from, weights_from};
ghost use Rattle.edits.specs.Rows.{scale_of};
ghost use Rattle.insertion.specs.Passes.{Formed, Inserted};

use crate::lower::{Spot, lower_rows};
use crate::put_knot::put_knot;
use edits::counts::multiplicity;
use edits::rows::{lift_in, row_at, vector_of};
use interval::float::is_finite;
use knots::refusal::{Reason, Refusal, refuse};
use knots::span::span_of;

// Finite, and strictly inside the domain.
fn is_inside(lo: f64, hi: f64, t: f64) -> bool
    ensures { result ≡ inside lo hi t }
{
    is_finite(t) && !(t <= lo) && !(t >= hi)
}

// Refusals 13 and 14 of a knot that the curve has s times.
fn spot_refusal(lo: f64, hi: f64, t: f64, p: usize, s: usize) -> Result<(), Refusal>
    ensures { result ≡ checked (spot_refusal lo hi t p s) }
{
    if !is_inside(lo, hi, t) {
        return Err(refuse(Reason::KnotOutside));
    }
    if s > p {
        return Err(refuse(Reason::KnotFull));
    }
    Ok(())
}

// The knot is inserted where it goes: 19, 20, and 8 of the curve that is formed. Nothing else of 1 to 10 can be: valid knots with a knot more are valid, and what 20 lets pass has a weight.
fn insert_at(
    spot: Spot,
    n: usize,
    scale: f64,
    rational: bool,
    a: usize,
    work: &mut [f64],
) -> Result<(), Refusal>
    requires s_le_p { (spot.s ≤ spot.p) × (spot.p ≤ spot.k) × (spot.k < n) }
    requires n_bound { ((n + 1) * 4 ≤ a) × (a + (n + spot.p + 1) < length work.old) }
    requires valid_knots { ValidKnots spot.p (n + 1) (more_knots spot.k spot.t (knots_from a spot.p n work.old)) }
    requires scale_value { scale ≡ scale_of rational (weights_from rational n work.old) }
    ensures { Formed a spot.p n spot.k spot.s spot.t (knots_from a spot.p n work.old) (points_from n work.old) rational (weights_from rational n work.old) work.old work.new result }
{
    let o = vector_of(row_at(rational, work, 0));
    lift_in(n, scale, rational, work)?;
    lower_rows(spot, n, a, o, rational, work)?;
    let at = a + spot.k;
    let end = a + (n + spot.p + 1);
    put_knot(work, at, end, spot.t);
    Ok(())
}

// The knot t is inserted: 13, 14, 19, 20, and 1 to 10 of the curve that is formed. What the run holds after a refusal is not said.
pub fn insert_one(
    p: usize,
    n: usize,
    scale: f64,
    rational: bool,
    t: f64,
    a: usize,
    work: &mut [f64],
) -> Result<(), Refusal>
    requires valid_knots { ValidKnots p n (knots_from a p n work.old) }
    requires n_bound { ((n + 1) * 4 ≤ a) × (a + (n + p + 1) < length work.old) }
    requires scale_value { scale ≡ scale_of rational (weights_from rational n work.old) }
    ensures { Inserted a p n (knots_from a p n work.old) (points_from n work.old) rational (weights_from rational n work.old) t work.old work.new result }
{
    let end = a + (n + p + 1);
    let ks = &work[a..end];
    let s = multiplicity(ks, t);
    spot_refusal(ks[p], ks[n], t, p, s)?;
    let k = span_of(p, n, t, ks);
    let spot = Spot { p, k, s, t };
    insert_at(spot, n, scale, rational, a, work)
}
