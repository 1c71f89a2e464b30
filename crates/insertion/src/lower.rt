// The controls of a curve that stands in a run, with a knot more, and back to points.
ghost use Rattle.std.specs.Prelude.{◌≡◌, ◌+◌, ◌*◌, ◌<◌, ◌≤◌, length};
ghost use Rattle.doubles.specs.Run.{at};
ghost use Rattle.knots.specs.Below.{off_at};
ghost use Rattle.runs.specs.Point.{finite_vector};
ghost use Rattle.edits.specs.Control.{vector_of};
ghost use Rattle.edits.specs.Work.{knots_from};
ghost use Rattle.edits.specs.Passes.{row_of};
ghost use Rattle.insertion.specs.Insert.{blend_at};
ghost use Rattle.insertion.specs.Passes.{blend_one, LowerDone};

use edits::control::{Control, blend_of, is_blended, lower_of, share_of};
use edits::rows::{kept_row, put_row, row_at, vector_of};
use knots::refusal::{Reason, Refusal, refuse, refuse_at};
use runs::vector::{Vector, finite_vector};

// Where a knot goes: the degree, the knot t, the last place k whose knot is at most t, and how many knots equal t.
#[derive(Clone, Copy, Debug, PartialEq)]
pub struct Spot {
    pub p: usize,
    pub k: usize,
    pub s: usize,
    pub t: f64,
}

// Control i of the curve with a knot more, of controls i - 1 and i of the old one; the knots stand from place a on. Outside k-p..k-s it is an old one.
fn blend_at(spot: Spot, a: usize, rows: &[f64], i: usize, before: Control, here: Control) -> Control
    requires s_le_p { (spot.s ≤ spot.p) × (spot.p ≤ spot.k) }
    requires p_in_bounds { a + spot.k + spot.p < length rows.now }
    ensures { result ≡ blend_one spot.p spot.k spot.s spot.t (λ j. at rows.now (a + j)) before here i }
{
    if i <= spot.k - spot.p {
        return here;
    }
    if i <= spot.k - spot.s {
        let left = a + i;
        let right = a + (i + spot.p);
        let s = share_of(spot.t, rows[left], rows[right]);
        return blend_of(before, here, s);
    }
    before
}

// The first of m points in rows with a coordinate that is not finite, or m: asked only where there is one.
fn non_finite_row(rational: bool, m: usize, rows: &[f64]) -> usize
    ensures { result ≡ off_at (λ i. finite_vector (vector_of (row_of rational rows.now i))) m }
{
    for i in 0..m {
        if !finite_vector(vector_of(row_at(rational, rows, i))) {
            return i;
        }
    }
    m
}

// The rows of n controls become those of the n + 1 points with a knot more: 20 where it is for a control; else 8 with the place of the first point that has a coordinate that is not finite. A row is lent alone, so that the compiler sees that it is whole.
pub fn lower_rows(
    spot: Spot,
    n: usize,
    a: usize,
    o: Vector,
    rational: bool,
    rows: &mut [f64],
) -> Result<(), Refusal>
    requires s_le_p { (spot.s ≤ spot.p) × (spot.p ≤ spot.k) }
    requires k_lt_n { (spot.k < n) × ((n + 1) * 4 ≤ a) }
    requires p_in_bounds { a + n + spot.p < length rows.old }
    ensures { LowerDone o rational (blend_at spot.p spot.k spot.s spot.t (knots_from a spot.p n rows.old) (row_of rational rows.old)) (n + 1) rows.old rows.new result }
{
    let m = n + 1;
    let mut fine = true;
    let mut before = row_at(rational, rows, 0);
    for i in 0..m {
        let at = i * 4;
        let end = at + 4;
        let here = row_at(rational, &rows[at..end], 0);
        let q = blend_at(spot, a, rows, i, before, here);
        if !is_blended(q) {
            return Err(refuse(Reason::EditBad));
        }
        let v = lower_of(o, q);
        fine = fine & finite_vector(v);
        put_row(rational, &mut rows[at..end], 0, kept_row(v, q.w));
        before = here;
    }
    if !fine {
        let first = non_finite_row(rational, m, rows);
        return Err(refuse_at(Reason::PointNotFinite, first));
    }
    Ok(())
}
