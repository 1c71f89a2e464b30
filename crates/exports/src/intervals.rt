// Interval arithmetic. Operands are passed by their ends; an answer's ends go into the lent run.
ghost use Rattle.std.specs.Prelude.{◌≡◌, ◌∷◌, []};
ghost use Rattle.interval.specs.Ops.{entire, new_of, point_of, width_of, hull_of, sqr_of, add_of, sub_of, mul_of, neg_of, divide_of};
ghost use Rattle.bounds.specs.Holds.{NotIdle};
ghost use Rattle.exports.specs.Answer.{Leaves, values};
ghost use Rattle.interval.specs.declared.Interval.{Interval};
ghost use Rattle.exports.specs.Intervals.{ends, new_answer, quotient_answer, on_new, on_both, both_of, sign_number, inside_number};

use crate::answer::{put, put_one, refuse};
use crate::operands::pair;
use interval::{Interval, Sign};
use knots::refusal::Refusal;

// What is returned where two doubles are no interval: document 01 has no number for it.
const NO_INTERVAL: u32 = 99;

// An operation on two operands. The contract is said of any f that it computes.
fn binary<F: FnOnce(Interval, Interval) -> Interval>(
    al: f64,
    ah: f64,
    bl: f64,
    bh: f64,
    out: &mut [f64],
    of: F,
) -> u32
    requires { F.IsAlwaysCallable of }
    ensures { (f : Interval → Interval → Interval) → ((a b c : Interval) → F.post of a b c → c ≡ f a b) → Leaves (on_both (both_of (new_of al ah) (new_of bl bh)) (λ a b. ends (f a b))) out.old out.new result }
{
    match pair(al, ah, bl, bh) {
        Some((a, b)) => put(out, of(a, b)),
        None => refuse(out, NO_INTERVAL),
    }
}

// An operation on one operand. The contract is said of any f that it computes.
fn unary<F: FnOnce(Interval) -> Interval>(lo: f64, hi: f64, out: &mut [f64], of: F) -> u32
    requires { F.IsAlwaysCallable of }
    ensures { (f : Interval → Interval) → ((a c : Interval) → F.post of a c → c ≡ f a) → Leaves (on_new (new_of lo hi) (λ a. ends (f a))) out.old out.new result }
{
    match Interval::new(lo, hi) {
        Some(a) => put(out, of(a)),
        None => refuse(out, NO_INTERVAL),
    }
}

// The whole line.
pub fn tasulogi_interval_entire(out: &mut [f64]) -> u32
    ensures { Leaves (ends entire) out.old out.new result }
{
    put(out, Interval::entire())
}

pub fn tasulogi_interval_new(lo: f64, hi: f64, out: &mut [f64]) -> u32
    ensures { Leaves (new_answer (new_of lo hi)) out.old out.new result }
{
    match Interval::new(lo, hi) {
        Some(a) => put(out, a),
        None => refuse(out, NO_INTERVAL),
    }
}

// The interval of one double; of NaN the whole line.
pub fn tasulogi_interval_point(x: f64, out: &mut [f64]) -> u32
    ensures { Leaves (ends (point_of x)) out.old out.new result }
{
    put(out, Interval::point(x))
}

// The width, rounded up.
pub fn tasulogi_interval_width(lo: f64, hi: f64, out: &mut [f64]) -> u32
    ensures { Leaves (on_new (new_of lo hi) (λ a. values (width_of a ∷ []))) out.old out.new result }
{
    match Interval::new(lo, hi) {
        Some(a) => put_one(out, a.width()),
        None => refuse(out, NO_INTERVAL),
    }
}

// 1 inside, 0 outside, 99 no interval.
pub fn tasulogi_interval_contains(lo: f64, hi: f64, x: f64) -> u32
    ensures { result ≡ inside_number (new_of lo hi) x }
{
    match Interval::new(lo, hi) {
        Some(a) => { if a.contains(x) { 1 } else { 0 } }
        None => NO_INTERVAL,
    }
}

// 1 positive, 2 negative, 3 zero, 0 unknown, 99 no interval.
pub fn tasulogi_interval_sign(lo: f64, hi: f64) -> u32
    ensures { result ≡ sign_number (new_of lo hi) }
{
    match Interval::new(lo, hi) {
        Some(a) => match a.sign() {
            Sign::Positive => 1,
            Sign::Negative => 2,
            Sign::Zero => 3,
            Sign::Unknown => 0,
        },
        None => NO_INTERVAL,
    }
}

// The square, which unlike a product is never negative.
pub fn tasulogi_interval_sqr(lo: f64, hi: f64, out: &mut [f64]) -> u32
    ensures { Leaves (on_new (new_of lo hi) (λ a. ends (sqr_of a))) out.old out.new result }
{
    unary(lo, hi, out, Interval::sqr)
}

pub fn tasulogi_interval_neg(lo: f64, hi: f64, out: &mut [f64]) -> u32
    ensures { Leaves (on_new (new_of lo hi) (λ a. ends (neg_of a))) out.old out.new result }
{
    unary(lo, hi, out, Interval::neg)
}

// The least interval with both in it.
pub fn tasulogi_interval_hull(al: f64, ah: f64, bl: f64, bh: f64, out: &mut [f64]) -> u32
    ensures { Leaves (on_both (both_of (new_of al ah) (new_of bl bh)) (λ a b. ends (hull_of a b))) out.old out.new result }
{
    binary(al, ah, bl, bh, out, Interval::hull)
}

pub fn tasulogi_interval_add(al: f64, ah: f64, bl: f64, bh: f64, out: &mut [f64]) -> u32
    ensures { Leaves (on_both (both_of (new_of al ah) (new_of bl bh)) (λ a b. ends (add_of a b))) out.old out.new result }
{
    binary(al, ah, bl, bh, out, Interval::add)
}

pub fn tasulogi_interval_sub(al: f64, ah: f64, bl: f64, bh: f64, out: &mut [f64]) -> u32
    ensures { Leaves (on_both (both_of (new_of al ah) (new_of bl bh)) (λ a b. ends (sub_of a b))) out.old out.new result }
{
    binary(al, ah, bl, bh, out, Interval::sub)
}

pub fn tasulogi_interval_mul(al: f64, ah: f64, bl: f64, bh: f64, out: &mut [f64]) -> u32
    ensures { Leaves (on_both (both_of (new_of al ah) (new_of bl bh)) (λ a b. ends (mul_of a b))) out.old out.new result }
{
    binary(al, ah, bl, bh, out, Interval::mul)
}

// By the steps of `divide`, which the compiler then joins. 26 where the divisor contains 0. 28 is never given.
pub fn tasulogi_interval_divide(al: f64, ah: f64, bl: f64, bh: f64, out: &mut [f64]) -> u32
    ensures leaves { Leaves (on_both (both_of (new_of al ah) (new_of bl bh)) (λ a b. quotient_answer (divide_of a b))) out.old out.new result }
    ensures not_idle { NotIdle result }
{
    match pair(al, ah, bl, bh) {
        Some((a, b)) => match interval::reciprocal(b) {
            Ok(r) => put(out, a.mul(r)),
            Err(e) => refuse(out, Refusal::from(e).number),
        },
        None => refuse(out, NO_INTERVAL),
    }
}
