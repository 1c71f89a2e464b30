// Lengths of runs: refusals 30, 32 and 11, and the sum of refusal 3.
ghost use Rattle.std.specs.Prelude.{◌≡◌, ◌+◌, ◌*◌, eqb};
ghost use Rattle.knots.specs.Curve.{over_long};

// A run that is given has more than 1,048,576 numbers.
pub fn over_long(given: bool, xs: &[f64]) -> bool
    ensures { result ≡ over_long given xs.now }
{
    if given { xs.len() > 1048576 } else { false }
}

// n is a + b + 1, whatever the three are: no sum is formed that could wrap.
pub fn is_sum(n: usize, a: usize, b: usize) -> bool
    ensures { result ≡ eqb n (a + b + 1) }
{
    if n <= a {
        return false;
    }
    if n - a <= b {
        return false;
    }
    n - a - b == 1
}

// n is a * b, whatever the three are: no product is formed that could wrap.
pub fn is_product(n: usize, a: usize, b: usize) -> bool
    ensures { result ≡ eqb n (a * b) }
{
    if a == 0 {
        return n == 0;
    }
    if n % a != 0 {
        return false;
    }
    n / a == b
}
