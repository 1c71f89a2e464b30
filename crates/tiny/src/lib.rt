// The product of a double with a few of the smallest one, in whole numbers: some processors take long for a floating-point product with such a number.
#![tactic(auto)]

ghost use Rattle.std.specs.Prelude.{◌≡◌, ◌≤◌, ◌<◌, ◌^◌};
ghost use Rattle.std.specs.Float.{binary64};
ghost use Rattle.std.specs.Float.Ieee.{mul, of_bits, to_bits};
ghost use Rattle.std.specs.Float.Ieee.Nearest.{closest};
ghost use Rattle.tiny.specs.Factors.{factor_of, times_of};

use interval::bits::{bits_of, double_of};

// A double without a sign: m / 2^shift.
#[derive(Clone, Copy)]
pub struct Factor {
    pub m: u64,
    pub shift: u64,
}

// The double of a pattern as a factor of k * 2^-1074, k below 1024. Below 2^-11 the product is less than half of the smallest double, so m is 0.
// From 2^42 on, at infinity, at a NaN and with a sign, -0.0 too, there is no factor, and the shift is 0.
pub fn factor_of(x: u64) -> Factor
    ensures { result ≡ factor_of x }
{
    if x < 0x3f40_0000_0000_0000 {
        return Factor { m: 0, shift: 63 };
    }
    if x < 0x4290_0000_0000_0000 {
        return Factor {
            m: x % 0x10_0000_0000_0000 + 0x10_0000_0000_0000,
            shift: 1075 - x / 0x10_0000_0000_0000,
        };
    }
    Factor { m: 0, shift: 0 }
}

// p / 2^shift to the nearest whole number, a tie to the even one.
fn rounded(p: u64, shift: u64) -> u64
    requires { (p < 2 ^ 63) × ((11 ≤ shift) × (shift < 64)) }
    ensures { result ≡ closest p (2 ^ shift) }
{
    let half = 1 << (shift - 1);
    (p + (half - 1) + (p >> shift) % 2) >> shift
}

// The pattern of the product of k * 2^-1074 with a factor, k below 1024; 0 at any other k and at what is no factor.
pub fn times(f: Factor, k: u64) -> u64
    ensures { result ≡ times_of f k }
{
    if k >= 1024 {
        return 0;
    }
    if f.m >= 0x20_0000_0000_0000 {
        return 0;
    }
    if f.shift < 11 {
        return 0;
    }
    if f.shift >= 64 {
        return 0;
    }
    rounded(k * f.m, f.shift)
}

// The pattern of the product of two doubles by their patterns: in whole numbers where k is below 1024, which is k * 2^-1074, and x has a factor.
pub fn product(k: u64, x: u64) -> u64
    ensures { result ≡ to_bits binary64 (mul binary64 (of_bits binary64 k) (of_bits binary64 x)) }
{
    let f = factor_of(x);
    if k < 1024 {
        if f.shift > 0 {
            return rounded(k * f.m, f.shift);
        }
    }
    bits_of(double_of(k) * double_of(x))
}
