// The bounds of a curve, or of its point alone, on each of its nonempty spans.
ghost use Rattle.std.specs.Prelude.{◌≡◌, true, ◌++◌, ◌+◌, ◌-◌, ◌*◌, ◌<◌, ◌≤◌, length, drop};
ghost use Rattle.std.proofs.lemmas.List.Edits.{sets};
ghost use Rattle.bounds.specs.Curve.{bound_at};
ghost use Rattle.knots.specs.Curve.{ValidCurve};
ghost use Rattle.many.specs.Rows.{rows_by};
ghost use Rattle.many.specs.Spans.{spans_from, spans_of, box_width, no_triple, no_bounds, point_bounds, box_row, point_box_row, row_by, marks_of, box_of, box_of_by, mark_at, box_at, box_at_by, BoxesMeet, SpansMeet, PointSpansMeet};
ghost use Rattle.many.specs.RowsHold.{RowsHold, PointRowsHold};
ghost use Rattle.knots.specs.Whole.{on};

use crate::start::{rooms_refusal, table_refusal};
use bounds::answer::{NurbsBounds, Triple};
use bounds::curve::bound_span;
use bounds::point::point_span;
use bounds::store::store_triple;
use interval::Interval;
use knots::clear::clear;
use knots::curve::Curve;
use knots::refusal::Refusal;

// What is stored of one answer: the number of its refusal or 0, then the box. Where the point alone is asked for, du and dv are not stored.
#[derive(Clone, Copy)]
struct BoxRow {
    number: u32,
    bounds: NurbsBounds,
}

// How many numbers a row has.
fn box_width(alone: bool) -> usize
    ensures { result ≡ box_width alone }
{
    if alone {
        return 6;
    }
    18
}

fn no_triple() -> Triple
    ensures { result ≡ no_triple }
{
    let i = Interval::point(0.0);
    Triple { x: i, y: i, z: i }
}

fn point_bounds(point: Triple) -> NurbsBounds
    ensures { result ≡ point_bounds point }
{
    let t = no_triple();
    NurbsBounds {
        point,
        du: t,
        dv: t,
    }
}

fn no_bounds() -> NurbsBounds
    ensures { result ≡ no_bounds }
{
    point_bounds(no_triple())
}

fn row_of(a: Result<NurbsBounds, Refusal>) -> BoxRow
    ensures { result ≡ box_row a }
{
    match a {
        Ok(bounds) => BoxRow { number: 0, bounds },
        Err(r) => BoxRow {
            number: r.number,
            bounds: no_bounds(),
        },
    }
}

fn point_row_of(a: Result<Triple, Refusal>) -> BoxRow
    ensures { result ≡ point_box_row a }
{
    match a {
        Ok(point) => BoxRow {
            number: 0,
            bounds: point_bounds(point),
        },
        Err(r) => BoxRow {
            number: r.number,
            bounds: no_bounds(),
        },
    }
}

// The row of span s on the range from lo to hi.
fn row_on(alone: bool, curve: Curve, s: usize, lo: f64, hi: f64) -> BoxRow
    ensures { result ≡ row_by alone (bound_at curve.entry.degree s curve.entry.knots.now curve.entry.points.now curve.entry.rational curve.entry.weights.now lo hi) }
{
    if alone {
        return point_row_of(point_span(curve, s, lo, hi));
    }
    row_of(bound_span(curve, s, lo, hi))
}

// Row i of both runs, for span s.
fn put_row(marks: &mut [u32], boxes: &mut [f64], i: usize, s: usize, row: BoxRow)
    requires i_in_bounds { i * 2 + 1 < length marks.old }
    requires i_bound { i < 1048576 }
    requires s_bound { s < 1048576 }
    ensures marks_after { marks.new ≡ sets marks.old (i * 2) (marks_of s row) }
    ensures boxes_after { boxes.new ≡ sets boxes.old (i * 18) (box_of row) }
{
    let m = i * 2;
    marks[m] = s as u32;
    marks[m + 1] = row.number;
    let at = i * 18;
    let b = row.bounds;
    store_triple(boxes, at, b.point);
    store_triple(boxes, at + 6, b.du);
    store_triple(boxes, at + 12, b.dv);
}

// The same of the point alone.
fn put_point_row(marks: &mut [u32], boxes: &mut [f64], i: usize, s: usize, row: BoxRow)
    requires i_in_bounds { i * 2 + 1 < length marks.old }
    requires i_bound { i < 1048576 }
    requires s_bound { s < 1048576 }
    ensures marks_after { marks.new ≡ sets marks.old (i * 2) (marks_of s row) }
    ensures boxes_after { boxes.new ≡ sets boxes.old (i * 6) (box_of_by true row) }
{
    let m = i * 2;
    marks[m] = s as u32;
    marks[m + 1] = row.number;
    store_triple(boxes, i * 6, row.bounds.point);
}

// Row i of both runs, whole or of the point alone.
fn put_row_by(alone: bool, marks: &mut [u32], boxes: &mut [f64], i: usize, s: usize, row: BoxRow)
    requires i_in_bounds { i * 2 + 1 < length marks.old }
    requires i_bound { i < 1048576 }
    requires s_bound { s < 1048576 }
    ensures marks_after { marks.new ≡ sets marks.old (i * 2) (marks_of s row) }
    ensures boxes_after { boxes.new ≡ sets boxes.old (i * box_width alone) (box_of_by alone row) }
{
    if alone {
        put_point_row(marks, boxes, i, s, row);
        return;
    }
    put_row(marks, boxes, i, s, row);
}

// How many of degree..=count-1 are nonempty spans.
fn span_count(degree: usize, count: usize, knots: &[f64]) -> usize
    requires degree_le_count { degree ≤ count }
    requires count_in_bounds { count < length knots.now }
    ensures { result ≡ length (spans_from (count - degree) knots.now degree) }
{
    let mut n = 0usize;
    for s in degree..count {
        if knots[s] < knots[s + 1] {
            n += 1;
        }
    }
    n
}

// A row for each nonempty span, on a curve that was validated.
fn bound_each_by(alone: bool, curve: Curve, marks: &mut [u32], boxes: &mut [f64])
    requires valid_curve { on curve ValidCurve }
    requires points_in_bounds { length (spans_of curve.degree curve.knots.now curve.points.now) * 2 ≤ length marks.old }
    requires alone_in_bounds { length (spans_of curve.degree curve.knots.now curve.points.now) * box_width alone ≤ length boxes.old }
    ensures marks_after { marks.new ≡ rows_by (on curve.entry mark_at) (spans_of curve.entry.degree curve.entry.knots.now curve.entry.points.now) ++ drop (length (spans_of curve.entry.degree curve.entry.knots.now curve.entry.points.now) * 2) marks.old }
    ensures boxes_after { boxes.new ≡ rows_by (on curve.entry box_at_by alone) (spans_of curve.entry.degree curve.entry.knots.now curve.entry.points.now) ++ drop (length (spans_of curve.entry.degree curve.entry.knots.now curve.entry.points.now) * box_width alone) boxes.old }
{
    let Curve {
        degree,
        knots,
        points,
        ..
    } = curve;
    let count = points.len() / 3;
    let mut i = 0usize;
    for s in degree..count {
        let lo = knots[s];
        let hi = knots[s + 1];
        if lo < hi {
            let row = row_on(alone, curve, s, lo, hi);
            put_row_by(alone, marks, boxes, i, s, row);
            i += 1;
        }
    }
}

// The same of whole boxes.
fn bound_each(curve: Curve, marks: &mut [u32], boxes: &mut [f64])
    requires valid_curve { on curve ValidCurve }
    requires marks_in_bounds { length (spans_of curve.degree curve.knots.now curve.points.now) * 2 ≤ length marks.old }
    requires boxes_in_bounds { length (spans_of curve.degree curve.knots.now curve.points.now) * 18 ≤ length boxes.old }
    ensures marks_after { marks.new ≡ rows_by (on curve.entry mark_at) (spans_of curve.entry.degree curve.entry.knots.now curve.entry.points.now) ++ drop (length (spans_of curve.entry.degree curve.entry.knots.now curve.entry.points.now) * 2) marks.old }
    ensures boxes_after { boxes.new ≡ rows_by (on curve.entry box_at) (spans_of curve.entry.degree curve.entry.knots.now curve.entry.points.now) ++ drop (length (spans_of curve.entry.degree curve.entry.knots.now curve.entry.points.now) * 18) boxes.old }
{
    bound_each_by(false, curve, marks, boxes);
}

// A row for each nonempty span, one validation for all.
fn bound_all(
    alone: bool,
    curve: Curve,
    marks: &mut [u32],
    boxes: &mut [f64],
) -> Result<usize, Refusal>
    ensures { on curve.entry BoxesMeet alone (length marks.old) (length boxes.old) marks.new boxes.new result }
{
    let Curve {
        degree,
        knots,
        points,
        ..
    } = curve;
    marks.fill(0);
    clear(boxes);
    table_refusal(curve)?;
    let n = span_count(degree, points.len() / 3, knots);
    let w = box_width(alone);
    rooms_refusal(marks.len(), n * 2, boxes.len(), n * w)?;
    if alone {
        bound_each_by(true, curve, marks, boxes);
        return Ok(n);
    }
    bound_each(curve, marks, boxes);
    Ok(n)
}

// The bounds on each nonempty span over its own closed range, one validation for all: the span and the number of its own refusal or 0, and eighteen numbers. Where that number is 0 they hold the exact point and derivative at every fraction of that range; else they are +0.0. 28 and 29 are never given.
pub fn bound_spans(curve: Curve, marks: &mut [u32], boxes: &mut [f64]) -> Result<usize, Refusal>
    ensures spans_meet { on curve.entry SpansMeet (length marks.old) (length boxes.old) marks.new boxes.new result }
    ensures rows_hold { on curve.entry RowsHold marks.new boxes.new result }
{
    bound_all(false, curve, marks, boxes)
}

// The same of the point alone, as bound_point answers: six numbers a row.
pub fn bound_points(curve: Curve, marks: &mut [u32], boxes: &mut [f64]) -> Result<usize, Refusal>
    ensures point_spans_meet { on curve.entry PointSpansMeet (length marks.old) (length boxes.old) marks.new boxes.new result }
    ensures point_rows_hold { on curve.entry PointRowsHold marks.new boxes.new result }
{
    bound_all(true, curve, marks, boxes)
}
