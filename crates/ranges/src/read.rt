// What a bound on a span of a curve asks before it starts: the runs' lengths, and the numbers that it reads.
ghost use Rattle.std.specs.Prelude.{◌≡◌, true, ◌+◌, ◌*◌, ◌/◌, ◌≤◌, ◌<◌, length};
ghost use Rattle.knots.specs.Refusal.{checked};
ghost use Rattle.knots.specs.Whole.{on};
ghost use Rattle.ranges.specs.Read.{read_refusal, place_refusal, start_refusal};

use crate::range::range_refusal;
use crate::spans::taken_span;
use knots::curve::{Curve, all_weights, any_long};
use knots::knots::{all_finite, is_ordered};
use knots::places::{bad_weight_at, non_finite_at, unordered_at};
use knots::refusal::{Reason, Refusal, refuse, refuse_at};
use knots::shape::curve_shape;

// Refusals 4, 8, 10 of the numbers that a bound on span s reads: 2 degree knots, degree + 1 points and, where they are given, their weights; with the place in the whole run.
fn read_refusal(curve: Curve, s: usize) -> Result<(), Refusal>
    requires degree_le_s { curve.degree ≤ s }
    requires degree_in_bounds { s + curve.degree < length curve.knots.now }
    requires s_in_bounds { s * 3 + 3 ≤ length curve.points.now }
    requires points_len_bound { length curve.points.now ≤ 1048576 }
    requires s_in_bounds_2 { curve.rational ≡ true → s < length curve.weights.now }
    ensures { result ≡ checked (on curve.entry (λ p. read_refusal p s)) }
{
    let first = s - curve.degree;
    let from = first + 1;
    let upto = s + curve.degree + 1;
    let ks = &curve.knots[from..upto];
    if !is_ordered(ks) {
        return Err(refuse_at(Reason::KnotsUnordered, from + unordered_at(ks)));
    }
    let at = first * 3;
    let end = s * 3 + 3;
    let ps = &curve.points[at..end];
    if !all_finite(ps) {
        return Err(refuse_at(Reason::PointNotFinite, first + non_finite_at(ps) / 3));
    }
    if !curve.rational {
        return Ok(());
    }
    let next = s + 1;
    let ws = &curve.weights[first..next];
    if !all_weights(ws) {
        return Err(refuse_at(Reason::WeightBad, first + bad_weight_at(ws)));
    }
    Ok(())
}

// The same where s is one of degree..=count-1, then 31, 24, 25.
fn place_refusal(curve: Curve, s: usize, lo: f64, hi: f64) -> Result<(), Refusal>
    requires knots_len { length curve.knots.now ≡ length curve.points.now / 3 + curve.degree + 1 }
    requires points_len_bound { length curve.points.now ≤ 1048576 }
    requires weights_len { curve.rational ≡ true → length curve.weights.now ≡ length curve.points.now / 3 }
    ensures { result ≡ checked (on curve.entry (λ p. place_refusal p s) lo hi) }
{
    let count = curve.points.len() / 3;
    if s < curve.degree {
        return range_refusal(curve.degree, count, count, lo, hi);
    }
    if s >= count {
        return range_refusal(curve.degree, count, count, lo, hi);
    }
    read_refusal(curve, s)?;
    let taken = taken_span(s, count, curve.knots, lo, hi);
    range_refusal(curve.degree, count, taken, lo, hi)
}

// Refusals of a bound on span s: 30, then 32, 1, 2, 3, 9 by the runs' lengths, then those of the place.
pub fn start_refusal(curve: Curve, s: usize, lo: f64, hi: f64) -> Result<(), Refusal>
    ensures { result ≡ checked (on curve.entry (λ p. start_refusal p s) lo hi) }
{
    if any_long(curve.knots, curve.points, curve.rational, curve.weights) {
        return Err(refuse(Reason::LengthBad));
    }
    curve_shape(curve)?;
    place_refusal(curve, s, lo, hi)
}
