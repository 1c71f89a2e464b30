// The place of a double among all doubles, and the number of steps between two.
ghost use Rattle.std.specs.Prelude.{◌≡◌, ◌<◌, pos, unsigned_abs};
ghost use Rattle.std.specs.Float.{binary64};
ghost use Rattle.doubles.specs.Place.{place as place_of, steps_of, wrapped};

// 0 for both zeros and for NaN, one more for the next double up.
pub fn place(x: f64) -> i64
    ensures { result ≡ place_of binary64 x }
{
    if x == x {
        let b = f64::to_bits(x);
        if b < 0x8000_0000_0000_0000 {
            b as i64
        } else {
            0 - ((b - 0x8000_0000_0000_0000) as i64)
        }
    } else {
        0
    }
}

// A place as a pattern of 64 bits: below 0 it is counted down from 2^64.
fn image(p: i64) -> u64
    requires { unsigned_abs p < 0x8000_0000_0000_0000 }
    ensures { result ≡ wrapped p }
{
    if p < 0 {
        std::num::wrapping_sub_u64(0, (0 - p) as u64)
    } else {
        p as u64
    }
}

// How many steps to the next double lead from lo up to hi; 0 where lo <= hi fails.
pub fn steps(lo: f64, hi: f64) -> u64
    ensures { pos result ≡ steps_of lo hi }
{
    if lo <= hi {
        std::num::wrapping_sub_u64(image(place(hi)), image(place(lo)))
    } else {
        0
    }
}
