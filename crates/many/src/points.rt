// A curve with one derivative, or with two, at many parameters.
ghost use Rattle.std.specs.Prelude.{◌≡◌, ◌++◌, ◌*◌, ◌<◌, ◌≤◌, length, drop, set};
ghost use Rattle.std.proofs.lemmas.List.Edits.{sets};
ghost use Rattle.knots.specs.Curve.{ValidCurve};
ghost use Rattle.knots.specs.Span.{refusing, clamping};
ghost use Rattle.many.specs.Rows.{rows_by};
ghost use Rattle.many.specs.Points.{width as width_of, row_at, numbers_of, number_at, numbers_at, EachMeets, PointsMeet, Points2Meet};
ghost use Rattle.knots.specs.Whole.{on};

use crate::row::{PointRow, row_of, row2_of, width};
use crate::start::points_start;
use evaluate::curve::eval_step;
use evaluate::curve2::eval2_step;
use knots::clear::clear;
use knots::curve::Curve;
use knots::refusal::Refusal;
use runs::store::store_vector;

// The row of one parameter, by the mode, on a curve that was validated.
fn row_at(clamps: bool, two: bool, curve: Curve, t: f64) -> PointRow
    requires { on curve ValidCurve }
    ensures { result ≡ on curve.entry (row_at clamps) two t }
{
    if two {
        return row2_of(eval2_step(clamps, curve, t));
    }
    row_of(eval_step(clamps, curve, t))
}

// Row i of both runs.
fn put_row(two: bool, numbers: &mut [u32], rows: &mut [f64], i: usize, row: PointRow)
    requires i_in_bounds { i < length numbers.old }
    requires i_bound { i < 1048576 }
    ensures numbers_after { numbers.new ≡ set numbers.old i row.number }
    ensures rows_after { rows.new ≡ sets rows.old (i * width_of two) (numbers_of two row) }
{
    let at = i * width(two);
    numbers[i] = row.number;
    store_vector(rows, at, row.point);
    store_vector(rows, at + 3, row.d1);
    if two {
        store_vector(rows, at + 6, row.d2);
    }
}

// A row for each parameter, on a curve that was validated.
fn eval_each(
    clamps: bool,
    two: bool,
    curve: Curve,
    ts: &[f64],
    numbers: &mut [u32],
    rows: &mut [f64],
)
    requires valid_curve { on curve ValidCurve }
    requires ts_len_bound { length ts.now ≤ 1048576 }
    requires ts_in_bounds { length ts.now ≤ length numbers.old }
    requires two_in_bounds { length ts.now * width_of two ≤ length rows.old }
    ensures numbers_after { numbers.new ≡ rows_by (on curve.entry (number_at clamps) two) ts.now ++ drop (length ts.now) numbers.old }
    ensures rows_after { rows.new ≡ rows_by (on curve.entry (numbers_at clamps) two) ts.now ++ drop (length ts.now * width_of two) rows.old }
{
    for (i, t) in ts.iter().enumerate() {
        let row = row_at(clamps, two, curve, *t);
        put_row(two, numbers, rows, i, row);
    }
}

// The point and its derivatives at each parameter, one validation for all: a row of numbers a parameter, and the number of its own refusal or 0.
fn eval_all(
    clamps: bool,
    two: bool,
    curve: Curve,
    ts: &[f64],
    numbers: &mut [u32],
    rows: &mut [f64],
) -> Result<usize, Refusal>
    ensures { on curve.entry (EachMeets clamps) two ts.now (length numbers.old) (length rows.old) numbers.new rows.new result }
{
    numbers.fill(0);
    clear(rows);
    let a = numbers.len();
    let b = rows.len();
    let w = width(two);
    points_start(curve, ts, w, a, b)?;
    eval_each(clamps, two, curve, ts, numbers, rows);
    Ok(ts.len())
}

// The point and the first derivative at each parameter: six numbers a row. One outside the domain is refused in its row.
pub fn eval_many(
    curve: Curve,
    ts: &[f64],
    numbers: &mut [u32],
    rows: &mut [f64],
) -> Result<usize, Refusal>
    ensures { on curve.entry (PointsMeet refusing) ts.now (length numbers.old) (length rows.old) numbers.new rows.new result }
{
    eval_all(false, false, curve, ts, numbers, rows)
}

// The same, where a finite parameter outside the domain becomes the nearer end.
pub fn eval_many_clamped(
    curve: Curve,
    ts: &[f64],
    numbers: &mut [u32],
    rows: &mut [f64],
) -> Result<usize, Refusal>
    ensures { on curve.entry (PointsMeet clamping) ts.now (length numbers.old) (length rows.old) numbers.new rows.new result }
{
    eval_all(true, false, curve, ts, numbers, rows)
}

// The point and two derivatives at each parameter: nine numbers a row. One outside the domain is refused in its row.
pub fn eval2_many(
    curve: Curve,
    ts: &[f64],
    numbers: &mut [u32],
    rows: &mut [f64],
) -> Result<usize, Refusal>
    ensures { on curve.entry (Points2Meet refusing) ts.now (length numbers.old) (length rows.old) numbers.new rows.new result }
{
    eval_all(false, true, curve, ts, numbers, rows)
}

// The same, where a finite parameter outside the domain becomes the nearer end.
pub fn eval2_many_clamped(
    curve: Curve,
    ts: &[f64],
    numbers: &mut [u32],
    rows: &mut [f64],
) -> Result<usize, Refusal>
    ensures { on curve.entry (Points2Meet clamping) ts.now (length numbers.old) (length rows.old) numbers.new rows.new result }
{
    eval_all(true, true, curve, ts, numbers, rows)
}
