// Isoparametric curves of a surface, in homogeneous form.
ghost use Rattle.std.specs.Prelude.{◌≡◌, true, ℕ, ◌+◌, ◌*◌, ◌/◌, ◌<◌, ◌≤◌, length};
ghost use Rattle.basis.specs.Basis.{cell};
ghost use Rattle.made.specs.Iso.{place_of, iso_term, iso_sums, lowered, IsoReach, IsoDone};

use evaluate::sums::{Sums, plus_of};
use knots::curve::is_weight;
use runs::points::{point_at, put_point};
use runs::vector::Vector;
use runs::weights::weight_at;

// The p + 1 places of the fixed direction from the first on, in a net of so many columns.
#[derive(Clone, Copy, Debug, PartialEq, Eq)]
pub struct Strip {
    pub constant_u: bool,
    pub columns: usize,
    pub first: usize,
    pub p: usize,
}

// The place in a net of the point at i of the fixed direction and k of the other.
fn place(constant_u: bool, columns: usize, i: usize, k: usize) -> usize
    requires { place_of constant_u columns i k < 18446744073709551616 }
    ensures { result ≡ place_of constant_u columns i k }
{
    if constant_u {
        return i * columns + k;
    }
    k * columns + i
}

// A homogeneous point: the source neither scales nor shifts it.
fn iso_term_of(q: Vector, w: f64) -> Sums
    ensures { result ≡ iso_term q w }
{
    Sums {
        x: q.x * w,
        y: q.y * w,
        z: q.z * w,
        w: 1.0 * w,
    }
}

// Homogeneous point k of the isocurve.
fn iso_sums(
    k: usize,
    strip: Strip,
    points: &[f64],
    rational: bool,
    weights: &[f64],
    ders: &[f64; 195],
) -> Sums
    requires p_bound { strip.p ≤ 64 }
    requires p_bound_2 { strip.first + strip.p < 18446744073709551616 }
    requires iso_reach { IsoReach (length points.now / 3) strip.constant_u strip.columns strip.first strip.p k }
    requires iso_reach_2 { rational ≡ true → IsoReach (length weights.now) strip.constant_u strip.columns strip.first strip.p k }
    ensures { result ≡ iso_sums points.now rational weights.now strip.constant_u strip.columns strip.first (cell ders.now 0) (strip.p + 1) k }
{
    let mut s = Sums {
        x: 0.0,
        y: 0.0,
        z: 0.0,
        w: 0.0,
    };
    for j in 0..=strip.p {
        let i = strip.first + j;
        let at = place(strip.constant_u, strip.columns, i, k);
        let n = ders[j];
        let w = weight_at(rational, weights, at) * n;
        let q = point_at(points, at);
        s = plus_of(s, iso_term_of(q, w));
    }
    s
}

// The point of a homogeneous one.
fn lowered(h: Sums) -> Vector
    ensures { result ≡ lowered h }
{
    Vector {
        x: h.x / h.w,
        y: h.y / h.w,
        z: h.z / h.w,
    }
}

// The points and weights of the isocurve, up to the first weight that is not finite and above 0; false where there is one.
pub fn iso_fill(
    count: usize,
    strip: Strip,
    points: &[f64],
    rational: bool,
    weights: &[f64],
    ders: &[f64; 195],
    out_points: &mut [f64],
    out_weights: &mut [f64],
) -> bool
    requires p_bound { strip.p ≤ 64 }
    requires p_bound_2 { strip.first + strip.p < 18446744073709551616 }
    requires by_index { (k : ℕ) → k < count → IsoReach (length points.now / 3) strip.constant_u strip.columns strip.first strip.p k }
    requires iso_reach { rational ≡ true → (k : ℕ) → k < count → IsoReach (length weights.now) strip.constant_u strip.columns strip.first strip.p k }
    requires count_in_bounds { count * 3 ≤ length out_points.old }
    requires count_in_bounds_2 { count ≤ length out_weights.old }
    requires count_bound { count ≤ 1048576 }
    ensures { IsoDone (iso_sums points.now rational weights.now strip.constant_u strip.columns strip.first (cell ders.now 0) (strip.p + 1)) count out_points.old out_weights.old out_points.new out_weights.new result }
{
    for k in 0..count {
        let h = iso_sums(k, strip, points, rational, weights, ders);
        if !is_weight(h.w) {
            return false;
        }
        put_point(out_points, k, lowered(h));
        out_weights[k] = h.w;
    }
    true
}
