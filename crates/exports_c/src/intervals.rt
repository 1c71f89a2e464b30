// Interval arithmetic. Operands are passed by their ends; an answer's ends go into the lent run.
ghost use Rattle.std.specs.Prelude.{◌≡◌, ◌∷◌, []};
ghost use Rattle.interval.specs.Ops.{entire, new_of, point_of, width_of, hull_of, sqr_of, add_of, sub_of, mul_of, neg_of, divide_of};
ghost use Rattle.bounds.specs.Holds.{NotIdle};
ghost use Rattle.exports.specs.Answer.{Leaves, values};
ghost use Rattle.exports.specs.Intervals.{ends, new_answer, quotient_answer, on_new, on_both, both_of, sign_number, inside_number};

// The whole line.
#[unsafe(no_mangle)]
pub extern "C" fn tasulogi_interval_entire(out: &mut [f64]) -> u32
    ensures { Leaves (ends entire) out.old out.new result }
{
    exports::intervals::tasulogi_interval_entire(out)
}

#[unsafe(no_mangle)]
pub extern "C" fn tasulogi_interval_new(lo: f64, hi: f64, out: &mut [f64]) -> u32
    ensures { Leaves (new_answer (new_of lo hi)) out.old out.new result }
{
    exports::intervals::tasulogi_interval_new(lo, hi, out)
}

// The interval of one double; of NaN the whole line.
#[unsafe(no_mangle)]
pub extern "C" fn tasulogi_interval_point(x: f64, out: &mut [f64]) -> u32
    ensures { Leaves (ends (point_of x)) out.old out.new result }
{
    exports::intervals::tasulogi_interval_point(x, out)
}

// The width, rounded up.
#[unsafe(no_mangle)]
pub extern "C" fn tasulogi_interval_width(lo: f64, hi: f64, out: &mut [f64]) -> u32
    ensures { Leaves (on_new (new_of lo hi) (λ a. values (width_of a ∷ []))) out.old out.new result }
{
    exports::intervals::tasulogi_interval_width(lo, hi, out)
}

// 1 inside, 0 outside, 99 no interval.
#[unsafe(no_mangle)]
pub extern "C" fn tasulogi_interval_contains(lo: f64, hi: f64, x: f64) -> u32
    ensures { result ≡ inside_number (new_of lo hi) x }
{
    exports::intervals::tasulogi_interval_contains(lo, hi, x)
}

// 1 positive, 2 negative, 3 zero, 0 unknown, 99 no interval.
#[unsafe(no_mangle)]
pub extern "C" fn tasulogi_interval_sign(lo: f64, hi: f64) -> u32
    ensures { result ≡ sign_number (new_of lo hi) }
{
    exports::intervals::tasulogi_interval_sign(lo, hi)
}

// The square, which unlike a product is never negative.
#[unsafe(no_mangle)]
pub extern "C" fn tasulogi_interval_sqr(lo: f64, hi: f64, out: &mut [f64]) -> u32
    ensures { Leaves (on_new (new_of lo hi) (λ a. ends (sqr_of a))) out.old out.new result }
{
    exports::intervals::tasulogi_interval_sqr(lo, hi, out)
}

#[unsafe(no_mangle)]
pub extern "C" fn tasulogi_interval_neg(lo: f64, hi: f64, out: &mut [f64]) -> u32
    ensures { Leaves (on_new (new_of lo hi) (λ a. ends (neg_of a))) out.old out.new result }
{
    exports::intervals::tasulogi_interval_neg(lo, hi, out)
}

// The least interval with both in it.
#[unsafe(no_mangle)]
pub extern "C" fn tasulogi_interval_hull(al: f64, ah: f64, bl: f64, bh: f64, out: &mut [f64]) -> u32
    ensures { Leaves (on_both (both_of (new_of al ah) (new_of bl bh)) (λ a b. ends (hull_of a b))) out.old out.new result }
{
    exports::intervals::tasulogi_interval_hull(al, ah, bl, bh, out)
}

#[unsafe(no_mangle)]
pub extern "C" fn tasulogi_interval_add(al: f64, ah: f64, bl: f64, bh: f64, out: &mut [f64]) -> u32
    ensures { Leaves (on_both (both_of (new_of al ah) (new_of bl bh)) (λ a b. ends (add_of a b))) out.old out.new result }
{
    exports::intervals::tasulogi_interval_add(al, ah, bl, bh, out)
}

#[unsafe(no_mangle)]
pub extern "C" fn tasulogi_interval_sub(al: f64, ah: f64, bl: f64, bh: f64, out: &mut [f64]) -> u32
    ensures { Leaves (on_both (both_of (new_of al ah) (new_of bl bh)) (λ a b. ends (sub_of a b))) out.old out.new result }
{
    exports::intervals::tasulogi_interval_sub(al, ah, bl, bh, out)
}

#[unsafe(no_mangle)]
pub extern "C" fn tasulogi_interval_mul(al: f64, ah: f64, bl: f64, bh: f64, out: &mut [f64]) -> u32
    ensures { Leaves (on_both (both_of (new_of al ah) (new_of bl bh)) (λ a b. ends (mul_of a b))) out.old out.new result }
{
    exports::intervals::tasulogi_interval_mul(al, ah, bl, bh, out)
}

// By the steps of `divide`, which the compiler then joins. 26 where the divisor contains 0. 28 is never given.
#[unsafe(no_mangle)]
pub extern "C" fn tasulogi_interval_divide(
    al: f64,
    ah: f64,
    bl: f64,
    bh: f64,
    out: &mut [f64],
) -> u32
    ensures leaves { Leaves (on_both (both_of (new_of al ah) (new_of bl bh)) (λ a b. quotient_answer (divide_of a b))) out.old out.new result }
    ensures not_idle { NotIdle result }
{
    exports::intervals::tasulogi_interval_divide(al, ah, bl, bh, out)
}
