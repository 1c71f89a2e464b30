// The span of a parameter.
ghost use Rattle.std.specs.Prelude.{◌≡◌, ◌-◌, ◌<◌, length};
ghost use Rattle.knots.specs.Refusal.{checked};
ghost use Rattle.knots.specs.Span.{outside, clamped, refusing, clamping, domain_refusal, halved, last_nonempty, span_refusal, SpanFound, SpanMeets};

use crate::knots::knot_refusal;
use crate::limits::over_long;
use crate::refusal::{Reason, Refusal, refuse};
use interval::float::is_finite;

// u lies outside the domain, as a number: an end with the other zero's sign does not. An end that the run does not have sets no limit.
pub fn is_outside(degree: usize, count: usize, knots: &[f64], u: f64) -> bool
    ensures { result ≡ outside degree count knots.now u }
{
    if degree < knots.len() {
        if u < knots[degree] {
            return true;
        }
    }
    if count < knots.len() {
        return u > knots[count];
    }
    false
}

// The refusal of a parameter: 12, then 43 where the mode is not to clamp.
pub fn domain_refusal(
    clamps: bool,
    degree: usize,
    count: usize,
    knots: &[f64],
    u: f64,
) -> Result<(), Refusal>
    ensures { result ≡ checked (domain_refusal clamps degree count knots.now u) }
{
    if !is_finite(u) {
        return Err(refuse(Reason::ParameterNotFinite));
    }
    if clamps {
        return Ok(());
    }
    if is_outside(degree, count, knots, u) {
        return Err(refuse(Reason::ParameterOutside));
    }
    Ok(())
}

// The clamped parameter: u, or the nearer end of the domain where u lies outside it. A NaN stays a NaN, a zero keeps its sign.
pub fn clamp(degree: usize, count: usize, u: f64, knots: &[f64]) -> f64
    ensures { result ≡ clamped degree count knots.now u }
{
    if degree < knots.len() {
        let lo = knots[degree];
        if u < lo {
            return lo;
        }
    }
    if count < knots.len() {
        let hi = knots[count];
        if u > hi {
            return hi;
        }
    }
    u
}

// At the end of the domain: the last nonempty span.
fn last_span(degree: usize, count: usize, knots: &[f64]) -> usize
    requires degree_lt_count { degree < count }
    requires count_in_bounds { count < length knots.now }
    ensures { result ≡ last_nonempty degree count knots.now }
{
    for span in (degree + 1..count).rev() {
        if knots[span] < knots[span + 1] {
            return span;
        }
    }
    degree
}

// Before the end: a binary search. Its window halves at each step whatever the knots are.
fn inner_span(degree: usize, count: usize, v: f64, knots: &[f64]) -> usize
    requires degree_lt_count { degree < count }
    requires count_in_bounds { count < length knots.now }
    ensures { result ≡ halved (count - degree) knots.now v degree count }
{
    let mut low = degree;
    let mut high = count;
    while high - low > 1 {
        let mid = (low + high) / 2;
        if v < knots[mid] {
            high = mid;
        } else {
            low = mid;
        }
    }
    low
}

// The span of the clamped parameter of a run that was validated before; on any other run what its search finds, and the degree where an index would leave the run.
pub fn span_of(degree: usize, count: usize, u: f64, knots: &[f64]) -> usize
    ensures { SpanFound degree count knots.now u result }
{
    if count <= degree {
        return degree;
    }
    if knots.len() <= count {
        return degree;
    }
    let v = clamp(degree, count, u, knots);
    if v < knots[count] {
        return inner_span(degree, count, v, knots);
    }
    last_span(degree, count, knots)
}

// The refusals of find_span: 30, 1 to 7, 12, 43, in this order.
fn span_refusal(
    clamps: bool,
    degree: usize,
    count: usize,
    knots: &[f64],
    u: f64,
) -> Result<(), Refusal>
    ensures { result ≡ checked (span_refusal clamps degree count knots.now u) }
{
    if over_long(true, knots) {
        return Err(refuse(Reason::LengthBad));
    }
    knot_refusal(degree, count, knots)?;
    domain_refusal(clamps, degree, count, knots, u)
}

// The span of a parameter by either mode, for any input.
fn find_by(
    clamps: bool,
    degree: usize,
    count: usize,
    knots: &[f64],
    u: f64,
) -> Result<usize, Refusal>
    ensures { SpanMeets clamps degree count knots.now u result }
{
    span_refusal(clamps, degree, count, knots, u)?;
    Ok(span_of(degree, count, u, knots))
}

// The span of a parameter, for any input. One outside the domain is refused.
pub fn find_span(degree: usize, count: usize, knots: &[f64], u: f64) -> Result<usize, Refusal>
    ensures { SpanMeets refusing degree count knots.now u result }
{
    find_by(false, degree, count, knots, u)
}

// The same, where a finite parameter outside the domain becomes the nearer end.
pub fn find_span_clamped(
    degree: usize,
    count: usize,
    knots: &[f64],
    u: f64,
) -> Result<usize, Refusal>
    ensures { SpanMeets clamping degree count knots.now u result }
{
    find_by(true, degree, count, knots, u)
}
