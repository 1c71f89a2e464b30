// Many answers of one curve with one validation: rows in the lent runs, or 0 and +0.0.
ghost use Rattle.std.specs.Prelude.{◌≡◌, length};
ghost use Rattle.knots.specs.Span.{refusing, clamping};
ghost use Rattle.many.specs.Rows.{answer};
ghost use Rattle.many.specs.Points.{points_start, PointsMeet, Points2Meet};
ghost use Rattle.many.specs.Spans.{spans_of, spans_start, spans_start_by, SpansMeet, PointSpansMeet};
ghost use Rattle.many.specs.RowsHold.{RowsHold, PointRowsHold};
ghost use Rattle.exports.specs.Rows.{rows_number, rows_count};

use crate::tables::{high, packed};
use knots::curve::Curve;
use knots::refusal::Refusal;
use many::boxes::{bound_points, bound_spans};
use many::points::{eval_many, eval_many_clamped, eval2_many, eval2_many_clamped};

// 0, or the refusal, packed.
fn rows_number(a: Result<usize, Refusal>) -> u64
    ensures { result ≡ rows_number a }
{
    match a {
        Ok(_) => 0,
        Err(r) => packed(r),
    }
}

// How many rows there are, or a refusal with its number in the high half, where no count reaches.
fn rows_count(a: Result<usize, Refusal>) -> u64
    ensures { result ≡ rows_count a }
{
    match a {
        Ok(n) => n as u64,
        Err(r) => high(r),
    }
}

// The point and the first derivative at each parameter.
pub fn tasulogi_eval_many(
    degree: usize,
    knots: &[f64],
    points: &[f64],
    rational: bool,
    weights: &[f64],
    ts: &[f64],
    numbers: &mut [u32],
    rows: &mut [f64],
) -> u64
    ensures value { result ≡ rows_number (answer (points_start degree knots.now points.now rational weights.now ts.now 6 (length numbers.old) (length rows.old)) (length ts.now)) }
    ensures points_meet { PointsMeet refusing degree knots.now points.now rational weights.now ts.now (length numbers.old) (length rows.old) numbers.new rows.new (answer (points_start degree knots.now points.now rational weights.now ts.now 6 (length numbers.old) (length rows.old)) (length ts.now)) }
{
    rows_number(eval_many(
        Curve {
            degree,
            knots,
            points,
            rational,
            weights,
        },
        ts,
        numbers,
        rows,
    ))
}

// The same, where a finite parameter outside the domain becomes the nearer end.
pub fn tasulogi_eval_many_clamped(
    degree: usize,
    knots: &[f64],
    points: &[f64],
    rational: bool,
    weights: &[f64],
    ts: &[f64],
    numbers: &mut [u32],
    rows: &mut [f64],
) -> u64
    ensures value { result ≡ rows_number (answer (points_start degree knots.now points.now rational weights.now ts.now 6 (length numbers.old) (length rows.old)) (length ts.now)) }
    ensures points_meet { PointsMeet clamping degree knots.now points.now rational weights.now ts.now (length numbers.old) (length rows.old) numbers.new rows.new (answer (points_start degree knots.now points.now rational weights.now ts.now 6 (length numbers.old) (length rows.old)) (length ts.now)) }
{
    rows_number(eval_many_clamped(
        Curve {
            degree,
            knots,
            points,
            rational,
            weights,
        },
        ts,
        numbers,
        rows,
    ))
}

// The point and two derivatives at each parameter.
pub fn tasulogi_eval2_many(
    degree: usize,
    knots: &[f64],
    points: &[f64],
    rational: bool,
    weights: &[f64],
    ts: &[f64],
    numbers: &mut [u32],
    rows: &mut [f64],
) -> u64
    ensures value { result ≡ rows_number (answer (points_start degree knots.now points.now rational weights.now ts.now 9 (length numbers.old) (length rows.old)) (length ts.now)) }
    ensures points2meet { Points2Meet refusing degree knots.now points.now rational weights.now ts.now (length numbers.old) (length rows.old) numbers.new rows.new (answer (points_start degree knots.now points.now rational weights.now ts.now 9 (length numbers.old) (length rows.old)) (length ts.now)) }
{
    rows_number(eval2_many(
        Curve {
            degree,
            knots,
            points,
            rational,
            weights,
        },
        ts,
        numbers,
        rows,
    ))
}

// The same, where a finite parameter outside the domain becomes the nearer end.
pub fn tasulogi_eval2_many_clamped(
    degree: usize,
    knots: &[f64],
    points: &[f64],
    rational: bool,
    weights: &[f64],
    ts: &[f64],
    numbers: &mut [u32],
    rows: &mut [f64],
) -> u64
    ensures value { result ≡ rows_number (answer (points_start degree knots.now points.now rational weights.now ts.now 9 (length numbers.old) (length rows.old)) (length ts.now)) }
    ensures points2meet { Points2Meet clamping degree knots.now points.now rational weights.now ts.now (length numbers.old) (length rows.old) numbers.new rows.new (answer (points_start degree knots.now points.now rational weights.now ts.now 9 (length numbers.old) (length rows.old)) (length ts.now)) }
{
    rows_number(eval2_many_clamped(
        Curve {
            degree,
            knots,
            points,
            rational,
            weights,
        },
        ts,
        numbers,
        rows,
    ))
}

// The bounds on each nonempty span: each row whose number is 0 holds the exact point and derivative; 28 and 29 are never given.
pub fn tasulogi_bound_spans(
    degree: usize,
    knots: &[f64],
    points: &[f64],
    rational: bool,
    weights: &[f64],
    marks: &mut [u32],
    boxes: &mut [f64],
) -> u64
    ensures value { result ≡ rows_count (answer (spans_start degree knots.now points.now rational weights.now (length marks.old) (length boxes.old)) (length (spans_of degree knots.now points.now))) }
    ensures spans_meet { SpansMeet degree knots.now points.now rational weights.now (length marks.old) (length boxes.old) marks.new boxes.new (answer (spans_start degree knots.now points.now rational weights.now (length marks.old) (length boxes.old)) (length (spans_of degree knots.now points.now))) }
    ensures rows_hold { RowsHold degree knots.now points.now rational weights.now marks.new boxes.new (answer (spans_start degree knots.now points.now rational weights.now (length marks.old) (length boxes.old)) (length (spans_of degree knots.now points.now))) }
{
    rows_count(bound_spans(
        Curve {
            degree,
            knots,
            points,
            rational,
            weights,
        },
        marks,
        boxes,
    ))
}

// The same of the point alone, six numbers a row.
pub fn tasulogi_bound_points(
    degree: usize,
    knots: &[f64],
    points: &[f64],
    rational: bool,
    weights: &[f64],
    marks: &mut [u32],
    boxes: &mut [f64],
) -> u64
    ensures value { result ≡ rows_count (answer (spans_start_by degree knots.now points.now rational weights.now 6 (length marks.old) (length boxes.old)) (length (spans_of degree knots.now points.now))) }
    ensures point_spans_meet { PointSpansMeet degree knots.now points.now rational weights.now (length marks.old) (length boxes.old) marks.new boxes.new (answer (spans_start_by degree knots.now points.now rational weights.now 6 (length marks.old) (length boxes.old)) (length (spans_of degree knots.now points.now))) }
    ensures point_rows_hold { PointRowsHold degree knots.now points.now rational weights.now marks.new boxes.new (answer (spans_start_by degree knots.now points.now rational weights.now 6 (length marks.old) (length boxes.old)) (length (spans_of degree knots.now points.now))) }
{
    rows_count(bound_points(
        Curve {
            degree,
            knots,
            points,
            rational,
            weights,
        },
        marks,
        boxes,
    ))
}
