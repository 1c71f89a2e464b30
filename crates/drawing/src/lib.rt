// A drawing of a motion table: an SVG of its control polygon and of each span's box. Its texts follow each other as head, points, middle, boxes, tail.
#![tactic(auto)]

mod extremes;
mod parts;
mod paths;

ghost use Rattle.std.specs.Prelude.{◌≡◌, ◌≤◌, ◌<◌, length};
ghost use Rattle.knots.specs.Curve.{count_of};
ghost use Rattle.knots.specs.Walk.{next_span};
ghost use Rattle.listing.specs.Text.{Shown};
ghost use Rattle.listing.specs.Listing.{shown_of, answer_of};
ghost use Rattle.drawing.specs.Drawing.{extent_of, view_of, head_text, point_text, middle_text, tail_text, box_text, parts_of, drawn_of};
ghost use Rattle.knots.specs.Whole.{on};

use bounds::answer::NurbsBounds;
use decimals::pieces::{put_number, put_text};
use extremes::extreme;
use interval::float::{infinity, min, next_down};
use knots::curve::Curve;
use knots::refusal::Refusal;
use listing::{Line, Range, next_range};
use parts::{bound_part, part_in};
use paths::{both_finite, put_corners, put_path, put_refusal, put_unbounded};
use record::clear::clear_bytes;

// The numbers of an SVG's viewBox: y grows downward there, so the top is the greatest y with its sign turned.
#[derive(Clone, Copy, Debug, PartialEq)]
pub struct View {
    pub x: f64,
    pub y: f64,
    pub width: f64,
    pub height: f64,
}

// How much is in view between two numbers: never 0, so that something shows, and no infinity.
fn extent(lo: f64, hi: f64) -> f64
    ensures { result ≡ extent_of lo hi }
{
    let d = hi - lo;
    if 0.0 < d {
        return min(d, next_down(infinity()));
    }
    1.0
}

// The view of all points of a run.
pub fn view_of(points: &[f64]) -> View
    ensures { result ≡ view_of points.now }
{
    let left = extreme(points, 0, false);
    let right = extreme(points, 0, true);
    let bottom = extreme(points, 1, false);
    let top = extreme(points, 1, true);
    View {
        x: left,
        y: -top,
        width: extent(left, right),
        height: extent(bottom, top),
    }
}

// The start of the drawing, with 0 behind it, and its length.
pub fn head_text(view: View, out: &mut [u8; 2304]) -> usize
    ensures { Shown 2304 (head_text view) out.new result }
{
    clear_bytes(out);
    let a = put_corners(
        out,
        0,
        b"<svg xmlns=\"http://www.w3.org/2000/svg\" width=\"1200\" height=\"600\">\n<svg x=\"60\" y=\"30\" width=\"1080\" height=\"540\" overflow=\"visible\" preserveAspectRatio=\"none\" viewBox=\"",
        b" ",
        b" ",
        view.x,
        view.y,
        view.width,
        view.height,
    );
    put_text(
        out,
        a,
        b"\">\n<g transform=\"scale(1,-1)\" fill=\"none\">\n<polyline vector-effect=\"non-scaling-stroke\" stroke=\"blue\" points=\"\n",
    )
}

// A point of the control polygon, in a line of its own.
pub fn point_text(x: f64, y: f64, out: &mut [u8; 2304]) -> usize
    ensures { Shown 2304 (point_text x y) out.new result }
{
    clear_bytes(out);
    let a = put_number(out, 0, b"", false, x);
    let b = put_number(out, a, b",", false, y);
    out[b] = b'\n';
    b + 1
}

// A text alone.
fn only_text(text: &[u8], out: &mut [u8; 2304]) -> usize
    requires { length text.now ≤ 2304 }
    ensures { Shown 2304 text.now out.new result }
{
    clear_bytes(out);
    put_text(out, 0, text)
}

// What stands between the points and the boxes.
pub fn middle_text(out: &mut [u8; 2304]) -> usize
    ensures { Shown 2304 middle_text out.new result }
{
    only_text(b"\"/>\n<g stroke=\"red\">\n", out)
}

// The end of the drawing.
pub fn tail_text(out: &mut [u8; 2304]) -> usize
    ensures { Shown 2304 tail_text out.new result }
{
    only_text(b"</g></g></svg></svg>\n", out)
}

// The line of a part of a span: its box as a path, or why there is none to draw.
pub fn box_text(
    span: usize,
    part: usize,
    answer: Result<NurbsBounds, Refusal>,
    out: &mut [u8; 2304],
) -> usize
    ensures { Shown 2304 (box_text span part answer) out.new result }
{
    clear_bytes(out);
    match answer {
        Ok(bounds) => {
            let x = bounds.point.x;
            let y = bounds.point.y;
            if both_finite(x, y) {
                put_path(out, span, part, x, y)
            } else {
                put_unbounded(out, span, part)
            }
        }
        Err(refusal) => put_refusal(out, span, part, refusal.number),
    }
}

// How many parts each span of a curve is drawn in.
pub fn parts_of(count: usize) -> usize
    ensures value { result ≡ parts_of count }
    ensures result_nonzero { 0 < result }
    ensures upper_bound { result ≤ 1024 }
{
    if count < 1024 {
        return 1024 / (count + 1);
    }
    1
}

// The line of a part of the first nonempty span from a place on, of a curve that was validated before; for any input. Where there is none, nothing but 0.
pub fn next_path(curve: Curve, from: usize, part: usize, out: &mut [u8; 2304]) -> Option<Line>
    ensures value { result ≡ answer_of (on curve.entry drawn_of part) (next_span curve.entry.degree (count_of curve.entry.points.now) curve.entry.knots.now from) }
    ensures shown { Shown 2304 (shown_of (on curve.entry drawn_of part) (next_span curve.entry.degree (count_of curve.entry.points.now) curve.entry.knots.now from)) out.new (length (shown_of (on curve.entry drawn_of part) (next_span curve.entry.degree (count_of curve.entry.points.now) curve.entry.knots.now from))) }
{
    let Curve {
        degree,
        knots,
        points,
        ..
    } = curve;
    let count = points.len() / 3;
    let parts = parts_of(count);
    let taken = part_in(parts, part);
    match next_range(degree, count, knots, from) {
        Some(Range { span, lower, upper }) => {
            let answer = bound_part(curve, span, lower, upper, taken, parts);
            let length = box_text(span, taken, answer, out);
            Some(Line { span, length })
        }
        None => {
            clear_bytes(out);
            None
        }
    }
}
