// A curve run backwards over the same domain.
ghost use Rattle.std.specs.Prelude.{◌≡◌, ◌++◌, true, ◌*◌, ◌/◌, ◌<◌, ◌≤◌, length, drop};
ghost use Rattle.knots.specs.Clear.{zeros};
ghost use Rattle.knots.specs.Curve.{ValidCurve};
ghost use Rattle.knots.specs.Refusal.{checked};
ghost use Rattle.knots.specs.Whole.{on};
ghost use Rattle.runs.specs.Tabulate.{tabulate};
ghost use Rattle.made.specs.Reverse.{given_length, back_place, back_number, back_at, reverse_start, ReverseFormed, ReverseMeets};

use crate::front::{clear_three, made_refusal};
use knots::curve::{Curve, curve_refusal};
use knots::refusal::Refusal;
use knots::shape::room_refusal;

// Where number i of a run that is run backwards comes from: of points three numbers stay together.
fn back_place(points: bool, n: usize, i: usize) -> usize
    requires i_lt_n { i < n }
    requires n_value { points ≡ true → n ≡ 3 * (n / 3) }
    ensures { (result ≡ back_place points n i) × (result < n) }
{
    if points {
        let point = n / 3 - 1 - i / 3;
        return point * 3 + i % 3;
    }
    n - 1 - i
}

// A knot x becomes lo + (hi - x); coordinates and weights stay.
fn back_number(knot: bool, lo: f64, hi: f64, x: f64) -> f64
    ensures { result ≡ back_number knot lo hi x }
{
    if knot {
        return lo + (hi - x);
    }
    x
}

// The first n numbers of a run from the last to the first.
fn run_back(knot: bool, points: bool, lo: f64, hi: f64, n: usize, xs: &[f64], back: &mut [f64])
    requires n_in_bounds { n ≤ length xs.now }
    requires n_in_bounds_2 { n ≤ length back.old }
    requires n_value { points ≡ true → n ≡ 3 * (n / 3) }
    ensures { back.new ≡ tabulate n (back_at knot points lo hi n xs.now) ++ drop n back.old }
{
    for i in 0..n {
        let from = back_place(points, n, i);
        back[i] = back_number(knot, lo, hi, xs[from]);
    }
}

// How many weights are given.
fn given_len(rational: bool, weights: &[f64]) -> usize
    ensures { result ≡ given_length rational weights.now }
{
    if rational { weights.len() } else { 0 }
}

// The refusal before anything is formed: the curve's, 30 for outputs of a, b, c numbers.
fn reverse_start(curve: Curve, a: usize, b: usize, c: usize) -> Result<(), Refusal>
    ensures { result ≡ checked (on curve.entry reverse_start a b c) }
{
    curve_refusal(curve)?;
    room_refusal(a, curve.knots.len())?;
    room_refusal(b, curve.points.len())?;
    room_refusal(c, given_len(curve.rational, curve.weights))
}

// The curve run backwards into cleared runs, and its refusal by 1 to 10.
fn reverse_into(
    curve: Curve,
    out_knots: &mut [f64],
    out_points: &mut [f64],
    out_weights: &mut [f64],
) -> Result<(), Refusal>
    requires valid_curve { on curve ValidCurve }
    requires knots_in_bounds { length curve.knots.now ≤ length out_knots.old }
    requires points_in_bounds { length curve.points.now ≤ length out_points.old }
    requires weights_in_bounds { given_length curve.rational curve.weights.now ≤ length out_weights.old }
    requires out_knots_value { out_knots.old ≡ zeros (length out_knots.old) }
    requires out_points_value { out_points.old ≡ zeros (length out_points.old) }
    requires out_weights_value { out_weights.old ≡ zeros (length out_weights.old) }
    ensures { on curve.entry ReverseFormed (length out_knots.old) (length out_points.old) (length out_weights.old) out_knots.new out_points.new out_weights.new result }
{
    let Curve {
        degree,
        knots,
        points,
        rational,
        weights,
    } = curve;
    let n = knots.len();
    let m = points.len();
    let w = given_len(rational, weights);
    let count = m / 3;
    let lo = knots[degree];
    let hi = knots[count];
    run_back(true, false, lo, hi, n, knots, out_knots);
    run_back(false, true, lo, hi, m, points, out_points);
    run_back(false, false, lo, hi, w, weights, out_weights);
    let formed = Curve {
        degree,
        knots: out_knots,
        points: out_points,
        rational,
        weights: out_weights,
    };
    made_refusal(formed, count, n, m, w)
}

// The curve run backwards over the same domain, in lent runs. Rounding can merge knots or put them out of order, so that the curve that is formed is refused by 4 or 7.
pub fn reversed(
    curve: Curve,
    out_knots: &mut [f64],
    out_points: &mut [f64],
    out_weights: &mut [f64],
) -> Result<(), Refusal>
    ensures { on curve.entry ReverseMeets (length out_knots.old) (length out_points.old) (length out_weights.old) out_knots.new out_points.new out_weights.new result }
{
    let a = out_knots.len();
    let b = out_points.len();
    let c = out_weights.len();
    clear_three(out_knots, out_points, out_weights);
    reverse_start(curve, a, b, c)?;
    let formed = reverse_into(curve, out_knots, out_points, out_weights);
    if formed.is_err() {
        clear_three(out_knots, out_points, out_weights);
    }
    formed
}
