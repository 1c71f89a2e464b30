// Control points and weights under an evaluation.
ghost use Rattle.std.specs.Prelude.{◌≡◌, true, false, ◌+◌, ◌*◌, ◌<◌, ◌≤◌, length};
ghost use Rattle.doubles.specs.Run.{at};
ghost use Rattle.basis.specs.Basis.{cell};
ghost use Rattle.evaluate.specs.Controls.{scale_of, term_of, row_sums};
ghost use Rattle.runs.specs.Scale.{weight_of};
ghost use Rattle.runs.specs.Larger.{largest_from};

use crate::sums::{Sums, plus_of};
use runs::larger::larger_of;
use runs::points::point_at;
use runs::vector::Vector;

// What a point q with weight w under a basis function n adds, relative to o. Relative to an active point no large coordinates are subtracted later.
// The source has one order of operations where one derivative is asked for, and another for two.
pub fn term_of(two: bool, o: Vector, q: Vector, w: f64, n: f64) -> Sums
    ensures { result ≡ term_of two o q w n }
{
    if two {
        let c = n * w;
        return Sums {
            x: (q.x - o.x) * c,
            y: (q.y - o.y) * c,
            z: (q.z - o.z) * c,
            w: c,
        };
    }
    Sums {
        x: ((q.x - o.x) * w) * n,
        y: ((q.y - o.y) * w) * n,
        z: ((q.z - o.z) * w) * n,
        w: w * n,
    }
}

// Weight i over a scale, and 1.0 where no weights are given.
pub fn weight_at(rational: bool, weights: &[f64], scale: f64, i: usize) -> f64
    requires { rational ≡ true → i < length weights.now }
    ensures { result ≡ weight_of rational weights.now scale i }
{
    if rational {
        return weights[i] / scale;
    }
    1.0
}

// The largest of m and the weights at n places from the first on.
pub fn largest_in(m: f64, weights: &[f64], first: usize, n: usize) -> f64
    requires { first + n ≤ length weights.now }
    ensures { result ≡ largest_from m (λ j. at weights.now (first + j)) n }
{
    let mut a = m;
    for w in &weights[first..first + n] {
        a = larger_of(a, *w);
    }
    a
}

// The largest weight at n places from the first on, and 1.0 where none are given. Weights over it neither overflow nor vanish together.
pub fn scale_at(rational: bool, weights: &[f64], first: usize, n: usize) -> f64
    requires { rational ≡ true → first + n ≤ length weights.now }
    ensures { result ≡ scale_of rational weights.now first n }
{
    if !rational {
        return 1.0;
    }
    largest_in(0.0, weights, first, n)
}

// What the basis functions and their first derivatives give.
#[derive(Clone, Copy, Debug, PartialEq)]
pub struct ValueSlope {
    pub value: Sums,
    pub slope: Sums,
}

// Rows 0 and 1 of a table of derivatives against the p + 1 active points from the first on: a point and its weight are read once for both. The order of operations is that of one derivative.
pub fn value_and_slope(
    p: usize,
    first: usize,
    scale: f64,
    points: &[f64],
    rational: bool,
    weights: &[f64],
    ders: &[f64; 195],
) -> ValueSlope
    requires p_bound { p ≤ 64 }
    requires p_in_bounds { (first + p) * 3 + 2 < length points.now }
    requires p_in_bounds_2 { rational ≡ true → first + p < length weights.now }
    ensures value_value { result.value ≡ row_sums false points.now rational weights.now scale first (cell ders.now 0) (p + 1) }
    ensures slope_value { result.slope ≡ row_sums false points.now rational weights.now scale first (cell ders.now 1) (p + 1) }
{
    let o = point_at(points, first);
    let mut value = Sums {
        x: 0.0,
        y: 0.0,
        z: 0.0,
        w: 0.0,
    };
    let mut slope = value;
    for j in 0..=p {
        let i = first + j;
        let at = 65 + j;
        let n = ders[j];
        let dn = ders[at];
        let w = weight_at(rational, weights, scale, i);
        let q = point_at(points, i);
        value = plus_of(value, term_of(false, o, q, w, n));
        slope = plus_of(slope, term_of(false, o, q, w, dn));
    }
    ValueSlope { value, slope }
}

// Row k of a table of derivatives against the p + 1 active points from the first on, in the order of operations of two derivatives.
pub fn row_sums(
    k: usize,
    p: usize,
    first: usize,
    scale: f64,
    points: &[f64],
    rational: bool,
    weights: &[f64],
    ders: &[f64; 195],
) -> Sums
    requires k_bound { k ≤ 2 }
    requires p_bound { p ≤ 64 }
    requires p_in_bounds { (first + p) * 3 + 2 < length points.now }
    requires p_in_bounds_2 { rational ≡ true → first + p < length weights.now }
    ensures { result ≡ row_sums true points.now rational weights.now scale first (cell ders.now k) (p + 1) }
{
    let o = point_at(points, first);
    let mut s = Sums {
        x: 0.0,
        y: 0.0,
        z: 0.0,
        w: 0.0,
    };
    for j in 0..=p {
        let i = first + j;
        let at = k * 65 + j;
        let n = ders[at];
        let w = weight_at(rational, weights, scale, i);
        let q = point_at(points, i);
        s = plus_of(s, term_of(true, o, q, w, n));
    }
    s
}
