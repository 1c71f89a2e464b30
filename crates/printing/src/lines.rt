// The lines of a table's nonempty spans, of any kind.
ghost use Rattle.std.specs.Prelude.{◌≡◌, length};
ghost use Rattle.knots.specs.Curve.{count_of};
ghost use Rattle.knots.specs.Walk.{next_span};
ghost use Rattle.listing.specs.Text.{Shown};
ghost use Rattle.listing.specs.Listing.{shown_of, answer_of};
ghost use Rattle.printing.specs.Printed.{line_of};
ghost use Rattle.knots.specs.Whole.{on};

use crate::Kind;
use drawing::{next_path, parts_of};
use knots::curve::Curve;
use knots::walk::next_span;
use listing::boxes::next_box;
use listing::{Line, next_line};

// How many lines a span has.
fn lines_of(kind: Kind, count: usize) -> usize {
    match kind {
        Kind::Drawing => parts_of(count),
        _ => 1,
    }
}

// A line of the first nonempty span from a place on, as `next_line` and the like say.
fn next_of(kind: Kind, curve: Curve, from: usize, part: usize, out: &mut [u8; 2304]) -> Option<Line>
    ensures value { result ≡ answer_of (on curve.entry (line_of kind) part) (next_span curve.entry.degree (count_of curve.entry.points.now) curve.entry.knots.now from) }
    ensures shown { Shown 2304 (shown_of (on curve.entry (line_of kind) part) (next_span curve.entry.degree (count_of curve.entry.points.now) curve.entry.knots.now from)) out.new (length (shown_of (on curve.entry (line_of kind) part) (next_span curve.entry.degree (count_of curve.entry.points.now) curve.entry.knots.now from))) }
{
    let Curve {
        degree,
        knots,
        points,
        ..
    } = curve;
    match kind {
        Kind::Spans => next_line(degree, points.len() / 3, knots, from, out),
        Kind::Boxes => next_box(false, curve, from, out),
        Kind::Speeds => next_box(true, curve, from, out),
        Kind::Drawing => next_path(curve, from, part, out),
    }
}

// The lines of a nonempty span, in order.
fn print_span(kind: Kind, curve: Curve, span: usize) {
    let Curve { points, .. } = curve;
    let count = lines_of(kind, points.len() / 3);
    for part in 0..count {
        let mut line = [0u8; 2304];
        match next_of(kind, curve, span, part, &mut line) {
            Some(Line { span: _, length }) => {
                io::write_all(1, &line[..length]);
            }
            None => return,
        }
    }
}

// Those of each, in order.
pub fn print_spans(kind: Kind, curve: Curve) {
    let Curve {
        degree,
        knots,
        points,
        ..
    } = curve;
    let count = points.len() / 3;
    let mut from = 0usize;
    while from < count {
        match next_span(degree, count, knots, from) {
            Some(span) => {
                print_span(kind, curve, span);
                from = span + 1;
            }
            None => return,
        }
    }
}
