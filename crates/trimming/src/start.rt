// The refusals of a cut before anything is formed.
ghost use Rattle.std.specs.Prelude.{◌≡◌, ◌+◌, ◌≤◌, ◌<◌, length};
ghost use Rattle.knots.specs.Refusal.{checked};
ghost use Rattle.knots.specs.Knots.{ValidKnots};
ghost use Rattle.knots.specs.Whole.{on};
ghost use Rattle.edits.specs.Counts.{below_of};
ghost use Rattle.trimming.specs.Trim.{in_range, kept_of, range_refusal, trim_start};

use edits::counts::{below, missing};
use edits::start::{edit_start, out_room, scratch_room};
use interval::float::is_finite;
use knots::curve::Curve;
use knots::refusal::{Reason, Refusal, refuse};

// Finite ends, lo below hi, and both in the domain from a to b.
fn is_range(a: f64, b: f64, lo: f64, hi: f64) -> bool
    ensures { result ≡ in_range a b lo hi }
{
    if !is_finite(lo) {
        return false;
    }
    if !is_finite(hi) {
        return false;
    }
    if lo >= hi {
        return false;
    }
    if lo < a {
        return false;
    }
    !(hi > b)
}

// How many points the cut has.
pub fn kept(p: usize, knots: &[f64], lo: f64, hi: f64) -> usize
    requires p_bound { p ≤ 1048576 }
    requires knots_len_bound { length knots.now ≤ 1048576 }
    requires lo_bound { below_of knots.now lo ≤ below_of knots.now hi }
    ensures { result ≡ kept_of p knots.now lo hi }
{
    let x = missing(p + 1, knots, lo);
    let f = below(knots, lo);
    below(knots, hi) + x - f
}

// 15, 30.
fn range_refusal(
    p: usize,
    knots: &[f64],
    n: usize,
    rational: bool,
    lo: f64,
    hi: f64,
    a: usize,
    b: usize,
    c: usize,
    d: usize,
) -> Result<(), Refusal>
    requires valid_knots { ValidKnots p n knots.now }
    requires knots_len_bound { length knots.now ≤ 1048576 }
    ensures { result ≡ checked (range_refusal p knots.now n rational lo hi a b c d) }
{
    if !is_range(knots[p], knots[n], lo, hi) {
        return Err(refuse(Reason::TrimBad));
    }
    out_room(p, kept(p, knots, lo, hi), rational, a, b, c)?;
    let x = missing(p + 1, knots, lo);
    let y = missing(p + 1, knots, hi);
    scratch_room(p, n + (x + y), d)
}

// The curve's refusal, 17, 15, 30 for the lent runs.
pub fn trim_start(
    curve: Curve,
    lo: f64,
    hi: f64,
    a: usize,
    b: usize,
    c: usize,
    d: usize,
) -> Result<(), Refusal>
    ensures { result ≡ checked (on curve.entry trim_start lo hi a b c d) }
{
    edit_start(curve)?;
    range_refusal(
        curve.degree,
        curve.knots,
        curve.points.len() / 3,
        curve.rational,
        lo,
        hi,
        a,
        b,
        c,
        d,
    )
}
