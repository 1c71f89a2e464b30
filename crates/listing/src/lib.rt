// The listers' lines.
#![tactic(auto)]

pub mod boxes;
mod places;
mod starts;

ghost use Rattle.std.specs.Prelude.{◌≡◌, length};
ghost use Rattle.knots.specs.Walk.{next_span};
ghost use Rattle.listing.specs.Text.{span_line, refusal_line, Shown};
ghost use Rattle.listing.specs.Range.{range_of};
ghost use Rattle.listing.specs.Listing.{line_of, shown_of, answer_of};

use decimals::pieces::put_label;
use knots::refusal::Refusal;
use knots::walk::next_span;
use places::put_place;
use record::clear::clear_bytes;
use starts::put_start;

// The line of a nonempty span, with the bytes that it has.
#[derive(Clone, Copy, Debug, PartialEq, Eq)]
pub struct Line {
    pub span: usize,
    pub length: usize,
}

// A nonempty span with its knots.
#[derive(Clone, Copy, Debug, PartialEq)]
pub struct Range {
    pub span: usize,
    pub lower: f64,
    pub upper: f64,
}

// The first nonempty span from a place on and both its knots, for any input.
#[tactic(auto, using(crate::proofs::Lines::span_in))]
pub fn next_range(degree: usize, count: usize, knots: &[f64], from: usize) -> Option<Range>
    ensures { result ≡ range_of knots.now (next_span degree count knots.now from) }
{
    let span = next_span(degree, count, knots, from)?;
    Some(Range {
        span,
        lower: knots[span],
        upper: knots[span + 1],
    })
}

// The line of a span between two knots into a lent run, with 0 behind it, and its length. Every NaN is shown as the quiet one with no sign and no payload.
pub fn span_line(span: usize, lower: f64, upper: f64, out: &mut [u8; 2304]) -> usize
    ensures { Shown 2304 (span_line span lower upper) out.new result }
{
    clear_bytes(out);
    let a = put_start(out, span, lower, upper);
    out[a] = b'\n';
    a + 1
}

// The line of a refusal, with 0 behind it, and its length.
pub fn refusal_line(refusal: Refusal, out: &mut [u8; 2304]) -> usize
    ensures { Shown 2304 (refusal_line refusal) out.new result }
{
    clear_bytes(out);
    let a = put_label(out, 0, b"refused ", refusal.number as u64);
    let b = put_place(out, a, refusal);
    out[b] = b'\n';
    b + 1
}

// The line of the first nonempty span from a place on, for any input; where there is none, nothing but 0.
pub fn next_line(
    degree: usize,
    count: usize,
    knots: &[f64],
    from: usize,
    out: &mut [u8; 2304],
) -> Option<Line>
    ensures value { result ≡ answer_of (line_of knots.now) (next_span degree count knots.now from) }
    ensures shown { Shown 2304 (shown_of (line_of knots.now) (next_span degree count knots.now from)) out.new (length (shown_of (line_of knots.now) (next_span degree count knots.now from))) }
{
    match next_range(degree, count, knots, from) {
        Some(Range { span, lower, upper }) => {
            let length = span_line(span, lower, upper, out);
            Some(Line { span, length })
        }
        None => {
            clear_bytes(out);
            None
        }
    }
}
