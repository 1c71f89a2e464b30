// Validation of a knot run: refusals 1 to 7.
ghost use Rattle.std.specs.Prelude.{◌≡◌, ◌+◌, ◌≤◌, length};
ghost use Rattle.knots.specs.Knots.{all_finite, in_order, ordered, apart, order_refusal, knot_refusal};
ghost use Rattle.knots.specs.Placed.{knot_placed};
ghost use Rattle.knots.specs.Refusal.{checked};

use crate::limits::is_sum;
use crate::numbers::{all_fine, is_below};
use crate::places::{repeated_at, unordered_at};
use crate::refusal::{Reason, Refusal, refuse, refuse_at};
use interval::float::is_finite;

// No number of the run is a NaN or an infinity.
pub fn all_finite(xs: &[f64]) -> bool
    ensures { result ≡ all_finite xs.now }
{
    all_fine(xs, false)
}

// No number exceeds the next. -0.0 and 0.0 are one number.
fn in_order(xs: &[f64]) -> bool
    requires { 1 ≤ length xs.now }
    ensures { result ≡ in_order xs.now }
{
    let mut fine = true;
    for i in 0..xs.len() - 1 {
        fine = fine & !(xs[i] > xs[i + 1]);
    }
    fine
}

// What refusal 4 asks: every knot is finite, and none exceeds the next.
pub fn is_ordered(xs: &[f64]) -> bool
    ensures { result ≡ ordered xs.now }
{
    if xs.len() == 0 {
        return true;
    }
    if all_finite(xs) { in_order(xs) } else { false }
}

// What refusal 7 asks, with a gap of degree + 1: of two knots so far apart the earlier is below the later.
fn apart_by(xs: &[f64], gap: usize) -> bool
    requires { gap ≤ length xs.now }
    ensures { result ≡ apart gap xs.now }
{
    let mut fine = true;
    for i in 0..xs.len() - gap {
        fine = fine & is_below(xs[i], xs[i + gap]);
    }
    fine
}

// Refusals 4 to 7, of a run that is as long as it must be. A place is looked for only where there is one.
fn order_refusal(degree: usize, count: usize, knots: &[f64]) -> Result<(), Refusal>
    requires { length knots.now ≡ count + degree + 1 }
    ensures { result ≡ checked (order_refusal degree count knots.now) }
{
    let ordered = is_ordered(knots);
    let lo = knots[degree];
    let hi = knots[count];
    if !ordered {
        let number = Reason::KnotsUnordered.number();
        return Err(knot_placed(number, degree, knots));
    }
    if lo >= hi {
        return Err(refuse(Reason::DomainEmpty));
    }
    if !is_finite(hi - lo) {
        return Err(refuse(Reason::DomainWide));
    }
    if !apart_by(knots, degree + 1) {
        let number = Reason::KnotRepeated.number();
        return Err(knot_placed(number, degree, knots));
    }
    Ok(())
}

// The refusal of a knot run, for any degree and count.
pub fn knot_refusal(degree: usize, count: usize, knots: &[f64]) -> Result<(), Refusal>
    ensures { result ≡ checked (knot_refusal degree count knots.now) }
{
    if degree == 0 {
        return Err(refuse(Reason::DegreeZero));
    }
    if count <= degree {
        return Err(refuse(Reason::FewPoints));
    }
    if !is_sum(knots.len(), count, degree) {
        return Err(refuse(Reason::KnotCount));
    }
    order_refusal(degree, count, knots)
}

// The number of a knot run's refusal, for any degree and count, or 0.
pub fn knot_number(degree: usize, count: usize, knots: &[f64]) -> u32
    ensures { result ≡ (knot_refusal degree count knots.now).number }
{
    match knot_refusal(degree, count, knots) {
        Ok(()) => 0,
        Err(refusal) => refusal.number,
    }
}

// The refusal of a knot run by its number, with the place of 4 and 7.
pub fn knot_placed(number: u32, degree: usize, knots: &[f64]) -> Refusal
    ensures { result ≡ knot_placed number degree knots.now }
{
    if number == 4 {
        return refuse_at(number, unordered_at(knots));
    }
    if number == 7 {
        return refuse_at(number, repeated_at(knots, degree));
    }
    refuse(number)
}
