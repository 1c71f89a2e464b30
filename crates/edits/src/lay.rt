// A curve goes into a lent run, and out of it.
ghost use Rattle.std.specs.Prelude.{◌≡◌, true, ◌++◌, ◌+◌, ◌*◌, ◌/◌, ◌<◌, ◌≤◌, length, drop};
ghost use Rattle.knots.specs.Whole.{on};
ghost use Rattle.edits.specs.Rows.{given};
ghost use Rattle.runs.specs.Lent.{padded};
ghost use Rattle.edits.specs.Work.{knots_from, points_from, weights_from};
ghost use Rattle.edits.specs.Passes.{given_row, RowsLaid, KnotsLaid, CurveIn};

use crate::counts::given_count;
use crate::inside::{put_whole, whole_row};
use crate::rows::{kept_row, vector_of};
use knots::curve::Curve;
use runs::copy::{clear_from, copy_run};
use runs::points::{point_at, put_point};
use runs::weights::{put_weight, weight_at};

// Points and their weights become rows. The test of the loop is the reader's own, so that the compiler keeps one of them.
pub fn lay_rows(points: &[f64], rational: bool, weights: &[f64], rows: &mut [f64])
    requires points_in_bounds { rational ≡ true → length points.now / 3 ≤ length weights.now }
    requires points_in_bounds_2 { length points.now / 3 * 4 ≤ length rows.old }
    ensures { RowsLaid rational (given_row points.now rational weights.now) (length points.now / 3) rows.old rows.new }
{
    for i in 0..points.len() / 3 {
        let q = kept_row(point_at(points, i), weight_at(rational, weights, i));
        put_whole(rational, rows, i, q);
    }
}

// Knots go to place a and on.
pub fn lay_knots(knots: &[f64], a: usize, work: &mut [f64])
    requires { a + length knots.now ≤ length work.old }
    ensures { KnotsLaid a knots.now work.old work.new }
{
    for i in 0..knots.len() {
        work[a + i] = knots[i];
    }
}

// A curve goes into a run, its knots to place a.
pub fn lay_into(curve: Curve, a: usize, work: &mut [f64])
    requires points_in_bounds { curve.rational ≡ true → length curve.points.now / 3 ≤ length curve.weights.now }
    requires points_len_bound { (length curve.points.now / 3 * 4 ≤ a) × (a + length curve.knots.now ≤ length work.old) }
    ensures { on curve.entry (λ p ks ps g ws. CurveIn a ks ps g ws) work.old work.new }
{
    lay_rows(curve.points, curve.rational, curve.weights, work);
    lay_knots(curve.knots, a, work);
}

// The points and weights of n rows go to n points, and to the front of the weights. The test of the loop is the store's own.
pub fn take_rows(n: usize, rational: bool, rows: &[f64], points: &mut [f64], weights: &mut [f64])
    requires n_in_bounds { n * 4 ≤ length rows.now }
    requires points_len { length points.old ≡ n * 3 }
    requires n_in_bounds_2 { rational ≡ true → n ≤ length weights.old }
    ensures points_after { points.new ≡ points_from n rows.now }
    ensures weights_after { weights.new ≡ weights_from rational n rows.now ++ drop (given rational n) weights.old }
{
    for i in 0..points.len() / 3 {
        let q = whole_row(rational, rows, i);
        put_point(points, i, vector_of(q));
        put_weight(weights, rational, i, q.w);
    }
}

// The curve of m points from row f and knot f on goes to three outputs, +0.0 behind it.
pub fn store_curve(
    p: usize,
    m: usize,
    f: usize,
    rational: bool,
    a: usize,
    work: &[f64],
    knots: &mut [f64],
    points: &mut [f64],
    weights: &mut [f64],
)
    requires m_bound { ((f + m) * 4 ≤ a) × (a + f + (m + p + 1) ≤ length work.now) }
    requires p_in_bounds { m + p + 1 ≤ length knots.old }
    requires m_in_bounds { m * 3 ≤ length points.old }
    requires m_in_bounds_2 { given rational m ≤ length weights.old }
    ensures knots_after { knots.new ≡ padded (length knots.old) (knots_from (a + f) p m work.now) }
    ensures points_after { points.new ≡ padded (length points.old) (points_from m (drop (f * 4) work.now)) }
    ensures weights_after { weights.new ≡ padded (length weights.old) (weights_from rational m (drop (f * 4) work.now)) }
{
    let from = a + f;
    let end = from + (m + p + 1);
    copy_run(&work[from..end], knots);
    let first = f * 4;
    let past = m * 3;
    take_rows(m, rational, &work[first..], &mut points[..past], weights);
    clear_from(points, past);
    clear_from(weights, given_count(rational, m));
}
