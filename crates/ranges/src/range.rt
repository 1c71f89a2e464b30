// The span of a closed range of the parameter, and the refusals of a range.
ghost use Rattle.std.specs.Prelude.{◌≡◌};
ghost use Rattle.knots.specs.Refusal.{checked};
ghost use Rattle.ranges.specs.Range.{span_in, range_refusal};

use crate::spans::first_span;
use interval::float::is_finite;
use knots::refusal::{Reason, Refusal, refuse};

// The first nonempty span that contains the closed range, or the count: also where there is no domain in the knots.
pub fn span_over(degree: usize, count: usize, knots: &[f64], lo: f64, hi: f64) -> usize
    ensures { result ≡ span_in degree count knots.now lo hi }
{
    if degree > count {
        return count;
    }
    if count >= knots.len() {
        return count;
    }
    first_span(degree, count, knots, lo, hi)
}

// Refusals 31, 24, 25 of a range, in this order.
pub fn range_refusal(
    degree: usize,
    count: usize,
    span: usize,
    lo: f64,
    hi: f64,
) -> Result<(), Refusal>
    ensures { result ≡ checked (range_refusal degree count span lo hi) }
{
    if degree > 64 {
        return Err(refuse(Reason::DegreeHigh));
    }
    if !is_finite(lo) {
        return Err(refuse(Reason::RangeBad));
    }
    if !is_finite(hi) {
        return Err(refuse(Reason::RangeBad));
    }
    if lo > hi {
        return Err(refuse(Reason::RangeBad));
    }
    if span == count {
        return Err(refuse(Reason::RangeInNoSpan));
    }
    Ok(())
}
