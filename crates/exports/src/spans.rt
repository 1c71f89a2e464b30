// Spans of a knot run, and the clamp. Every call is total.
ghost use Rattle.std.specs.Prelude.{◌≡◌};
ghost use Rattle.knots.specs.Span.{clamped, refusing, clamping, span_answer};
ghost use Rattle.knots.specs.Walk.{next_span};
ghost use Rattle.exports.specs.Tables.{span_number, next_number};

use crate::tables::high;
use knots::refusal::Refusal;
use knots::span::{clamp, find_span, find_span_clamped};
use knots::walk::next_span;

// A span, or a refusal with its number in the high half.
fn span_number(a: Result<usize, Refusal>) -> u64
    ensures { result ≡ span_number a }
{
    match a {
        Ok(s) => s as u64,
        Err(r) => high(r),
    }
}

// The span of a parameter, or a refusal.
pub fn tasulogi_find_span(degree: usize, count: usize, knots: &[f64], u: f64) -> u64
    ensures { result ≡ span_number (span_answer refusing degree count knots.now u) }
{
    span_number(find_span(degree, count, knots, u))
}

// The same, where a finite parameter outside the domain becomes the nearer end.
pub fn tasulogi_find_span_clamped(degree: usize, count: usize, knots: &[f64], u: f64) -> u64
    ensures { result ≡ span_number (span_answer clamping degree count knots.now u) }
{
    span_number(find_span_clamped(degree, count, knots, u))
}

// The first nonempty span from a place on, or the count where there is none.
pub fn tasulogi_next_span(degree: usize, count: usize, knots: &[f64], from: usize) -> usize
    ensures { result ≡ next_number count (next_span degree count knots.now from) }
{
    next_span(degree, count, knots, from).unwrap_or(count)
}

// The clamped parameter: u, or the nearer end of the domain.
pub fn tasulogi_clamp(degree: usize, count: usize, u: f64, knots: &[f64]) -> f64
    ensures { result ≡ clamped degree count knots.now u }
{
    clamp(degree, count, u, knots)
}
