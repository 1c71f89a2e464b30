// The segments of an extracted curve are raised one by one, and their points and weights written.
ghost use Rattle.std.specs.Prelude.{not, ◌+◌, ◌-◌, ◌*◌, ◌<◌, ◌≤◌, length};
ghost use Rattle.edits.specs.Counts.{bit};
ghost use Rattle.edits.specs.Rows.{given};
ghost use Rattle.edits.specs.Passes.{row_of};
ghost use Rattle.elevation.specs.Breaks.{breaks_of};
ghost use Rattle.elevation.specs.Raise.{raise_times};
ghost use Rattle.elevation.specs.Elevate.{extracted_count, raised_count, controls_of, kept_all};
ghost use Rattle.elevation.specs.Passes.{control_in, RowsAre, Put};

use crate::inner::Breaks;
use crate::raise::raise_rows;
use crate::walk::is_full;
use edits::control::{is_blended, lower_of};
use edits::counts::bit_of;
use edits::rows::{put_row, row_at};
use runs::points::put_point;
use runs::vector::Vector;
use runs::weights::put_weight;

// m controls from control `first` on go to the front of another run.
fn load_rows(rational: bool, first: usize, m: usize, from: &[f64], rows: &mut [f64])
    requires m_in_bounds { (first + m) * 4 ≤ length from.now }
    requires m_in_bounds_2 { m * 4 ≤ length rows.old }
    ensures { RowsAre (λ i. row_of rational from.now (first + i)) m (length rows.old) rows.new }
{
    for i in 0..m {
        let q = row_at(rational, from, first + i);
        put_row(true, rows, i, q);
    }
}

// The points and weights of m controls from control `first` on, from a place on; false at the first that refusal 20 is for.
fn put_rows(
    first: usize,
    m: usize,
    rows: &[f64],
    o: Vector,
    rational: bool,
    place: usize,
    points: &mut [f64],
    weights: &mut [f64],
) -> bool
    requires m_in_bounds { (first + m) * 4 ≤ length rows.now }
    requires m_in_bounds_2 { (place + m) * 3 ≤ length points.old }
    requires m_in_bounds_3 { given rational (place + m) ≤ length weights.old }
    ensures { Put o rational (controls_of (control_in rows.now) first m) place points.old weights.old points.new weights.new result }
{
    for i in 0..m {
        let q = row_at(true, rows, first + i);
        if !is_blended(q) {
            return false;
        }
        let at = place + i;
        put_point(points, at, lower_of(o, q));
        put_weight(weights, rational, at, q.w);
    }
    true
}

// The segment whose controls stand from control `first` on is raised, in a run of its own, and what it adds is written: after a full break all its controls, else all but the first.
fn put_segment(
    p: usize,
    e: usize,
    first: usize,
    full: bool,
    work: &[f64],
    o: Vector,
    rational: bool,
    place: usize,
    points: &mut [f64],
    weights: &mut [f64],
) -> bool
    requires p_le_e { (p ≤ e) × (e ≤ 64) }
    requires p_in_bounds { (first + (p + 1)) * 4 ≤ length work.now }
    requires full_in_bounds { (place + (e + bit full)) * 3 ≤ length points.old }
    requires full_in_bounds_2 { given rational (place + (e + bit full)) ≤ length weights.old }
    ensures { Put o rational (controls_of (raise_times p (e - p) (λ i. row_of rational work.now (first + i))) (bit (not full)) (e + bit full)) place points.old weights.old points.new weights.new result }
{
    let mut rows = [0.0; 260];
    load_rows(rational, first, p + 1, work, &mut rows);
    raise_rows(p, e, &mut rows);
    let skipped = bit_of(!full);
    let m = e + bit_of(full);
    put_rows(skipped, m, &rows, o, rational, place, points, weights)
}

// All segments: the first, and one after each break; false at the first control that refusal 20 is for.
pub fn put_segments(
    p: usize,
    e: usize,
    n: usize,
    knots: &[f64],
    work: &[f64],
    o: Vector,
    rational: bool,
    points: &mut [f64],
    weights: &mut [f64],
) -> bool
    requires p_lt_n { (p < n) × (n ≤ length knots.now) × (p ≤ e) × (e ≤ 64) }
    requires knots_in_bounds { extracted_count p (breaks_of p n knots.now) * 4 ≤ length work.now }
    requires knots_in_bounds_2 { raised_count p e knots.now (breaks_of p n knots.now) * 3 ≤ length points.old }
    requires knots_in_bounds_3 { given rational (raised_count p e knots.now (breaks_of p n knots.now)) ≤ length weights.old }
    ensures { Put o rational (kept_all p e knots.now (row_of rational work.now) (breaks_of p n knots.now)) 0 points.old weights.old points.new weights.new result }
{
    if !put_segment(p, e, 0, true, work, o, rational, 0, points, weights) {
        return false;
    }
    let mut first = p + 1;
    let mut place = e + 1;
    for t in Breaks::new(p, n, knots) {
        let full = is_full(p, knots, t);
        if !put_segment(p, e, first, full, work, o, rational, place, points, weights) {
            return false;
        }
        first += p + 1;
        place += e + bit_of(full);
    }
    true
}
