// The knots of the raised curve.
ghost use Rattle.std.specs.Prelude.{◌≡◌, ◌+◌, ◌<◌, ◌≤◌, length, replicate};
ghost use Rattle.elevation.specs.Breaks.{breaks_of};
ghost use Rattle.elevation.specs.Elevate.{break_knots, raised_knots};
ghost use Rattle.elevation.specs.Passes.{over};

use crate::inner::Breaks;
use crate::walk::is_full;
use edits::counts::bit_of;

// Each break e times, and once more where it is full, from a place on; the place behind them.
fn put_breaks(p: usize, e: usize, n: usize, knots: &[f64], from: usize, out: &mut [f64]) -> usize
    requires p_lt_n { (p < n) × (n ≤ length knots.now) × (e ≤ 64) }
    requires knots_in_bounds { from + length (break_knots p e knots.now (breaks_of p n knots.now)) ≤ length out.old }
    ensures { (result ≡ from + length (break_knots p e knots.now (breaks_of p n knots.now))) × (out.new ≡ over from (break_knots p e knots.now (breaks_of p n knots.now)) out.old) }
{
    let mut at = from;
    for t in Breaks::new(p, n, knots) {
        let m = e + bit_of(is_full(p, knots, t));
        out[at..at + m].fill(t);
        at += m;
    }
    at
}

// The breaks between e + 1 knots at each end of the domain.
pub fn put_knots(p: usize, e: usize, n: usize, knots: &[f64], out: &mut [f64])
    requires p_lt_n { (p < n) × (n < length knots.now) × (e ≤ 64) }
    requires knots_in_bounds { length (raised_knots p e n knots.now (breaks_of p n knots.now)) ≤ length out.old }
    ensures { out.new ≡ over 0 (raised_knots p e n knots.now (breaks_of p n knots.now)) out.old }
{
    let m = e + 1;
    out[..m].fill(knots[p]);
    let at = put_breaks(p, e, n, knots, m, out);
    out[at..at + m].fill(knots[n]);
}
