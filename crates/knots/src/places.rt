// The places that refusals 4, 7, 8 and 10 say. These walks run only where a run is refused.
ghost use Rattle.std.specs.Prelude.{◌≡◌, ◌+◌, ◌-◌, length};
ghost use Rattle.doubles.specs.Run.{at};
ghost use Rattle.knots.specs.Below.{off_at};
ghost use Rattle.knots.specs.Fine.{fine as fine_of, before as before_of};
ghost use Rattle.knots.specs.Knots.{non_finite_at, unordered_at, repeated_at};
ghost use Rattle.knots.specs.Curve.{bad_weight_at};

use crate::numbers::{is_below, is_fine};

// The first number that is not finite or, of weights, not a weight; the run's length where all are fine.
fn first_off(xs: &[f64], weight: bool) -> usize
    ensures { result ≡ off_at (λ k. fine_of weight (at xs.now k)) (length xs.now) }
{
    for (i, x) in xs.iter().enumerate() {
        if !is_fine(*x, weight) {
            return i;
        }
    }
    xs.len()
}

// a does not exceed b; where `strict`, it is not at least b either. True where one is a NaN.
fn is_before(a: f64, b: f64, strict: bool) -> bool
    ensures { result ≡ before_of strict a b }
{
    if strict {
        return is_below(a, b);
    }
    !(a > b)
}

// The first number that is not before the one `gap` places further on; how many pairs there are where none is.
fn first_pair(xs: &[f64], gap: usize, strict: bool) -> usize
    ensures { result ≡ off_at (λ k. before_of strict (at xs.now k) (at xs.now (k + gap))) (length xs.now - gap) }
{
    if xs.len() <= gap {
        return 0;
    }
    let end = xs.len() - gap;
    for k in 0..end {
        if !is_before(xs[k], xs[k + gap], strict) {
            return k;
        }
    }
    end
}

// The first number that is not finite: a knot of 4, a coordinate of 8.
pub fn non_finite_at(xs: &[f64]) -> usize
    ensures { result ≡ non_finite_at xs.now }
{
    first_off(xs, false)
}

// Of 10: the first number that is no weight.
pub fn bad_weight_at(xs: &[f64]) -> usize
    ensures { result ≡ bad_weight_at xs.now }
{
    first_off(xs, true)
}

// Of 4: the first knot that is not finite, wherever it stands; where all are, the first that exceeds the next.
pub fn unordered_at(xs: &[f64]) -> usize
    ensures { result ≡ unordered_at xs.now }
{
    let non_finite = non_finite_at(xs);
    if non_finite < xs.len() {
        return non_finite;
    }
    first_pair(xs, 1, false)
}

// Of 7: the first knot that is at least the one degree + 1 places further on.
pub fn repeated_at(xs: &[f64], degree: usize) -> usize
    ensures { result ≡ repeated_at (degree + 1) xs.now }
{
    if xs.len() <= degree {
        return 0;
    }
    first_pair(xs, degree + 1, true)
}
