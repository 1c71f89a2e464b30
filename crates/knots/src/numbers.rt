// The tests of a run's numbers: of two knots that one is below the other; of one number that it is finite and, of a weight, above 0. Of the last two a call says which as a constant, so that each has a loop of its own.
ghost use Rattle.std.specs.Prelude.{◌≡◌, not};
ghost use Rattle.std.specs.Float.Ieee.{le};
ghost use Rattle.knots.specs.Fine.{above as above_of, fine as fine_of, all_fine};

use interval::float::is_finite;

// a is not at least b, as numbers: -0.0 and 0.0 are one knot. True where one is a NaN.
pub fn is_below(a: f64, b: f64) -> bool
    ensures { result ≡ not (le b a) }
{
    !(a >= b)
}

// What a weight is asked beside being finite. NaN and both zeros are not above 0.
pub fn is_above(x: f64, weight: bool) -> bool
    ensures { result ≡ above_of weight x }
{
    if weight {
        return x > 0.0;
    }
    true
}

// A number that the run may have.
pub fn is_fine(x: f64, weight: bool) -> bool
    ensures { result ≡ fine_of weight x }
{
    if is_finite(x) {
        is_above(x, weight)
    } else {
        false
    }
}

// The two questions are asked apart: of both at once the compiler makes slower code.
pub fn all_fine(xs: &[f64], weight: bool) -> bool
    ensures { result ≡ all_fine weight xs.now }
{
    let mut finite = true;
    let mut above = true;
    for x in xs {
        finite = finite & is_finite(*x);
        above = above & is_above(*x, weight);
    }
    finite & above
}
