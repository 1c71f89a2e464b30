// Curves that stand at the front of lent runs, and the runs cleared.
ghost use Rattle.std.specs.Prelude.{◌≡◌, ◌≤◌, length, take};
ghost use Rattle.knots.specs.Clear.{zeros};
ghost use Rattle.knots.specs.Curve.{formed_refusal};
ghost use Rattle.knots.specs.Refusal.{checked};
ghost use Rattle.knots.specs.Whole.{on};

use knots::clear::clear;
use knots::curve::{Curve, formed_refusal};
use knots::refusal::Refusal;

// Refusals 1 to 10 of a curve that was formed: a knots, b coordinates, c weights.
pub fn made_refusal(curve: Curve, count: usize, a: usize, b: usize, c: usize) -> Result<(), Refusal>
    requires a_in_bounds { a ≤ length curve.knots.now }
    requires b_in_bounds { b ≤ length curve.points.now }
    requires c_in_bounds { c ≤ length curve.weights.now }
    ensures { result ≡ checked (on curve.entry (λ p ks ps g ws. formed_refusal p count (take a ks) (take b ps) g (take c ws))) }
{
    let k = &curve.knots[..a];
    let p = &curve.points[..b];
    let w = &curve.weights[..c];
    formed_refusal(curve.degree, count, k, p, curve.rational, w)
}

// Two runs and three at once.
pub fn clear_two(x: &mut [f64], y: &mut [f64])
    ensures { (x.new ≡ zeros (length x.old)) × (y.new ≡ zeros (length y.old)) }
{
    clear(x);
    clear(y);
}

pub fn clear_three(x: &mut [f64], y: &mut [f64], z: &mut [f64])
    ensures { (x.new ≡ zeros (length x.old)) × (y.new ≡ zeros (length y.old)) × (z.new ≡ zeros (length z.old)) }
{
    clear_two(x, y);
    clear(z);
}
