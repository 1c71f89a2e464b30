// The lines of the box lister and of the speed lister.
ghost use Rattle.std.specs.Prelude.{cond, ◌≡◌, ◌+◌, ◌≤◌, length};
ghost use Rattle.knots.specs.Curve.{count_of};
ghost use Rattle.knots.specs.Walk.{next_span};
ghost use Rattle.doubles.specs.Run.{at};
ghost use Rattle.bounds.specs.Numbers.{bounded_values};
ghost use Rattle.bounds.specs.Eighteen.{triple_by};
ghost use Rattle.decimals.specs.Stored.{Stored};
ghost use Rattle.listing.specs.Text.{Shown};
ghost use Rattle.listing.specs.Listing.{shown_of, answer_of};
ghost use Rattle.listing.specs.Boxes.{each, outcome, box_line, box_of};
ghost use Rattle.listing.specs.Ends.{ends_text, ends_room};
ghost use Rattle.knots.specs.Whole.{on};

use crate::starts::put_start;
use crate::{Line, Range, next_range};
use bounds::answer::{NurbsBounds, Triple};
use bounds::curve::bound_span;
use decimals::pieces::{put_bits, put_label, put_number};
use interval::Interval;
use knots::curve::Curve;
use knots::refusal::Refusal;
use record::clear::clear_bytes;

// Both ends, by their bits or as decimals. These are rounded outward, so that they hold what the interval holds.
fn put_ends(out: &mut [u8], at: usize, rounded: bool, i: Interval) -> usize
    requires { at + ends_room rounded ≤ length out.old }
    ensures stored { Stored out.old at (ends_text rounded i) out.new result }
    ensures upper_bound { result ≤ at + ends_room rounded }
{
    if rounded {
        let next = put_number(out, at, b" ", false, i.lo());
        return put_number(out, next, b" ", true, i.hi());
    }
    let next = put_bits(out, at, i.lo());
    put_bits(out, next, i.hi())
}

fn put_all_ends(out: &mut [u8], at: usize, rounded: bool, t: Triple) -> usize
    requires { at + (ends_room rounded + (ends_room rounded + ends_room rounded)) ≤ length out.old }
    ensures stored { Stored out.old at (each (ends_text rounded) t) out.new result }
    ensures upper_bound { result ≤ at + (ends_room rounded + (ends_room rounded + ends_room rounded)) }
{
    let y = put_ends(out, at, rounded, t.x);
    let z = put_ends(out, y, rounded, t.y);
    put_ends(out, z, rounded, t.z)
}

// The point, or its derivative along u.
fn shown_of(speeds: bool, b: NurbsBounds) -> Triple
    ensures { result ≡ triple_by (at (bounded_values (Ok b))) (cond speeds 6 0) }
{
    if speeds {
        return b.du;
    }
    b.point
}

fn put_outcome(
    out: &mut [u8],
    at: usize,
    speeds: bool,
    answer: Result<NurbsBounds, Refusal>,
) -> usize
    requires { at + 2088 ≤ length out.old }
    ensures stored { Stored out.old at (outcome speeds answer) out.new result }
    ensures upper_bound { result ≤ at + 2088 }
{
    match answer {
        Ok(b) => {
            let t = shown_of(speeds, b);
            let next = put_all_ends(out, at, false, t);
            put_all_ends(out, next, true, t)
        }
        Err(refusal) => put_label(out, at, b" refused ", refusal.number as u64),
    }
}

// The line of a span between two knots into a lent run, with 0 behind it, and its length: the intervals of the point, or of its derivative where speeds are asked for, by their bits and as decimals, or why there are none.
pub fn box_line(
    speeds: bool,
    span: usize,
    lower: f64,
    upper: f64,
    answer: Result<NurbsBounds, Refusal>,
    out: &mut [u8; 2304],
) -> usize
    ensures { Shown 2304 (box_line speeds span lower upper answer) out.new result }
{
    clear_bytes(out);
    let a = put_start(out, span, lower, upper);
    let b = put_outcome(out, a, speeds, answer);
    out[b] = b'\n';
    b + 1
}

// The line of the first nonempty span from a place on, bounded over its own closed range, of a curve that was validated before; for any input. Where there is none, nothing but 0.
pub fn next_box(speeds: bool, curve: Curve, from: usize, out: &mut [u8; 2304]) -> Option<Line>
    ensures value { result ≡ answer_of (on curve.entry (box_of speeds)) (next_span curve.entry.degree (count_of curve.entry.points.now) curve.entry.knots.now from) }
    ensures shown { Shown 2304 (shown_of (on curve.entry (box_of speeds)) (next_span curve.entry.degree (count_of curve.entry.points.now) curve.entry.knots.now from)) out.new (length (shown_of (on curve.entry (box_of speeds)) (next_span curve.entry.degree (count_of curve.entry.points.now) curve.entry.knots.now from))) }
{
    let Curve {
        degree,
        knots,
        points,
        ..
    } = curve;
    match next_range(degree, points.len() / 3, knots, from) {
        Some(Range { span, lower, upper }) => {
            let answer = bound_span(curve, span, lower, upper);
            let length = box_line(speeds, span, lower, upper, answer, out);
            Some(Line { span, length })
        }
        None => {
            clear_bytes(out);
            None
        }
    }
}
