// Outward-rounding interval arithmetic: each bound is rounded to nearest, and then moved one double outward,
// so that the interval encloses the exact result. The source's interval.rs, and `divide` of its nurbs_bounds.rs.
#![tactic(auto)]

ghost use Rattle.std.specs.Prelude.{◌≡◌};
ghost use Rattle.std.specs.Float.Ieee.{neg};
ghost use Rattle.doubles.specs.Neighbour.{next_up, next_down};
ghost use Rattle.interval.specs.Ops.{entire, new_of, point_of, width_of, contains_of, hull_of, sign_of, checked_of, sqr_of, add_of, sub_of, mul_of, neg_of, some_nan, symmetric_of, is_symmetric, reciprocal_of, divide_of};

use crate::float::{infinity, is_nan, max, min, next_down, next_up};
use crate::step::{above, absolute, below, least, most, number};

pub mod bits;
pub mod float;
pub mod place;
pub mod spread;
mod step;

// A closed interval that holds the exact value it stands for.
#[derive(Clone, Copy)]
pub struct Interval {
    lo: f64,
    hi: f64,
}

// The sign of all that an interval holds. Zero is [0, 0] alone; what is on both sides of 0, or touches it, is Unknown.
#[derive(Clone, Copy, Debug, PartialEq, Eq)]
pub enum Sign {
    Positive,
    Negative,
    Zero,
    Unknown,
}

impl Interval {
    // The whole line: the result of any operation that met a NaN.
    pub fn entire() -> Interval
        ensures { result ≡ entire }
    {
        let i = infinity();
        Interval { lo: -i, hi: i }
    }

    // None where the low end is above the high end, or one is a NaN.
    pub fn new(lo: f64, hi: f64) -> Option<Interval>
        ensures { result ≡ new_of lo hi }
    {
        if lo <= hi {
            Some(Interval { lo, hi })
        } else {
            None
        }
    }

    // Exactly one value. NaN gives the whole line.
    pub fn point(value: f64) -> Interval
        ensures { result ≡ point_of value }
    {
        if is_nan(value) {
            Interval::entire()
        } else {
            Interval {
                lo: value,
                hi: value,
            }
        }
    }

    pub fn lo(self) -> f64
        ensures { result ≡ self.lo }
    {
        self.lo
    }

    pub fn hi(self) -> f64
        ensures { result ≡ self.hi }
    {
        self.hi
    }

    // The width, rounded up.
    pub fn width(self) -> f64
        ensures { result ≡ width_of self }
    {
        next_up(self.hi - self.lo)
    }

    pub fn contains(self, value: f64) -> bool
        ensures { result ≡ contains_of self value }
    {
        self.lo <= value && value <= self.hi
    }

    // The smallest interval that holds both operands.
    pub fn hull(self, other: Interval) -> Interval
        ensures { result ≡ hull_of self other }
    {
        Interval {
            lo: min(self.lo, other.lo),
            hi: max(self.hi, other.hi),
        }
    }

    pub fn sign(self) -> Sign
        ensures { result ≡ sign_of self }
    {
        if self.lo > 0.0 {
            return Sign::Positive;
        }
        if self.hi < 0.0 {
            return Sign::Negative;
        }
        if self.lo == 0.0 {
            if self.hi == 0.0 {
                return Sign::Zero;
            }
        }
        Sign::Unknown
    }

    // The square, which unlike x * x is never negative.
    pub fn sqr(self) -> Interval
        ensures { result ≡ sqr_of self }
    {
        let a = self.lo * self.lo;
        let b = self.hi * self.hi;
        let hi = next_up(max(a, b));
        if self.contains(0.0) {
            Interval::checked(0.0, hi)
        } else {
            Interval::checked(max(next_down(min(a, b)), 0.0), hi)
        }
    }

    // An operation that met a NaN gives the whole line.
    fn checked(lo: f64, hi: f64) -> Interval
        ensures { result ≡ checked_of lo hi }
    {
        if is_nan(lo) {
            return Interval::entire();
        }
        if is_nan(hi) {
            return Interval::entire();
        }
        Interval { lo, hi }
    }

    // Both ends of an operation, rounded to nearest, one step outward.
    fn outward(lo: f64, hi: f64) -> Interval
        ensures { result ≡ checked_of (next_down lo) (next_up hi) }
    {
        if is_nan(lo) {
            return Interval::entire();
        }
        if is_nan(hi) {
            return Interval::entire();
        }
        Interval {
            lo: below(lo),
            hi: above(hi),
        }
    }

    pub fn add(self, o: Interval) -> Interval
        ensures { result ≡ add_of self o }
    {
        Interval::outward(self.lo + o.lo, self.hi + o.hi)
    }

    pub fn sub(self, o: Interval) -> Interval
        ensures { result ≡ sub_of self o }
    {
        Interval::outward(self.lo - o.hi, self.hi - o.lo)
    }

    pub fn mul(self, o: Interval) -> Interval
        ensures { result ≡ mul_of self o }
    {
        let p = self.lo * o.lo;
        let q = self.lo * o.hi;
        let r = self.hi * o.lo;
        let s = self.hi * o.hi;
        if some_nan(p, q, r, s) {
            return Interval::entire();
        }
        let lo = least(least(p, q), least(r, s));
        let hi = most(most(p, q), most(r, s));
        Interval::outward(lo, hi)
    }

    pub fn neg(self) -> Interval
        ensures { result ≡ neg_of self }
    {
        Interval {
            lo: -self.hi,
            hi: -self.lo,
        }
    }
}

// Intervals that are symmetric about zero.
impl Interval {
    // [-|s|, |s|]. NaN gives the whole line.
    pub fn symmetric(s: f64) -> Interval
        ensures { result ≡ symmetric_of s }
    {
        if is_nan(s) {
            return Interval::entire();
        }
        let m = absolute(s);
        Interval { lo: -m, hi: m }
    }

    // Its ends are opposite numbers.
    pub fn is_symmetric(self) -> bool
        ensures { result ≡ is_symmetric self }
    {
        self.lo == -self.hi
    }
}

// Why two intervals have no quotient: the divisor holds 0, or its reciprocals have no interval.
#[derive(Clone, Copy, Debug, PartialEq, Eq)]
pub enum DivideError {
    HoldsZero,
    Unbounded,
}

// The outward interval of both reciprocals, where b does not hold 0.
pub fn reciprocal(b: Interval) -> Result<Interval, DivideError>
    ensures { result ≡ reciprocal_of b }
{
    if b.contains(0.0) {
        return Err(DivideError::HoldsZero);
    }
    let y = 1.0 / b.hi;
    let x = number(1.0 / b.lo, y);
    if is_nan(x) {
        return Err(DivideError::Unbounded);
    }
    Interval::new(below(least(x, y)), above(most(x, y))).ok_or(DivideError::Unbounded)
}

// a / b, where b does not hold 0: a times the outward interval of both reciprocals.
pub fn divide(a: Interval, b: Interval) -> Result<Interval, DivideError>
    ensures { result ≡ divide_of a b }
{
    let r = reciprocal(b)?;
    Ok(a.mul(r))
}

// One of four is a NaN.
fn some_nan(p: f64, q: f64, r: f64, s: f64) -> bool
    ensures { result ≡ some_nan p q r s }
{
    if is_nan(p) {
        return true;
    }
    if is_nan(q) {
        return true;
    }
    if is_nan(r) {
        return true;
    }
    is_nan(s)
}
