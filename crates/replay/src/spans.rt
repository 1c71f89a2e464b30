// Validation, spans and classes: what is read behind a table, and what the Rust answers.
use knots::curve::{Curve, curve_refusal};
use knots::refusal::{Refusal, class_of};
use knots::span::{clamp, find_span, find_span_clamped};
use knots::surface::{Surface, surface_refusal};
use knots::walk::next_span;
use replaying::answers::{accepted, refused, same};
use replaying::runs::size;
use replaying::words::{double, word};

// Reads what a check answers: 0, or the refusal.
pub fn checked(a: Result<(), Refusal>) -> bool {
    match a {
        Ok(()) => accepted(),
        Err(r) => refused(r.number, r.direction, r.place),
    }
}

pub fn curve(curve: Curve) -> bool {
    checked(curve_refusal(curve))
}

pub fn surface(surface: Surface) -> bool {
    checked(surface_refusal(surface))
}

// Reads the number of a refusal and its place, or 0 and the span.
fn spanned(a: Result<usize, Refusal>) -> bool {
    let number = word();
    let at = size();
    match a {
        Ok(s) => number == 0 && s == at,
        Err(r) => r.number as u64 == number && r.place == at,
    }
}

pub fn found(clamping: bool, degree: usize, count: usize, knots: &[f64]) -> bool {
    let u = double();
    if clamping {
        return spanned(find_span_clamped(degree, count, knots, u));
    }
    spanned(find_span(degree, count, knots, u))
}

// The span, or the count where there is none.
pub fn next(degree: usize, count: usize, knots: &[f64]) -> bool {
    let from = size();
    let span = size();
    match next_span(degree, count, knots, from) {
        Some(s) => s == span,
        None => count == span,
    }
}

pub fn clamped(degree: usize, count: usize, knots: &[f64]) -> bool {
    let u = double();
    let want = word();
    same(clamp(degree, count, u, knots), want, false)
}

pub fn class() -> bool {
    let number = word();
    let want = word();
    if number > 1000 {
        return false;
    }
    class_of(number as u32) as u64 == want
}
