// Sums and largest weights over the active part of a net, row by row.
ghost use Rattle.std.specs.Prelude.{◌≡◌, true, false, ◌+◌, ◌*◌, ◌/◌, ◌<◌, ◌≤◌, length};
ghost use Rattle.std.specs.Float.{binary64};
ghost use Rattle.std.specs.Float.Ieee.{mul};
ghost use Rattle.basis.specs.Basis.{cell};
ghost use Rattle.evaluate.specs.Controls.{sums_from, row_term};
ghost use Rattle.evaluate.specs.Surface.{NetReach, net_scale, net_sums};

use crate::controls::{largest_in, term_of, weight_at};
use crate::sums::{Sums, plus_of};
use runs::points::point_at;
use runs::vector::Vector;

// The p + 1 rows from row a on and the q + 1 columns from column b on, of a net of so many columns.
#[derive(Clone, Copy, Debug, PartialEq, Eq)]
pub struct Net {
    pub columns: usize,
    pub a: usize,
    pub p: usize,
    pub b: usize,
    pub q: usize,
}

// The largest weight of the active part, and 1.0 where none are given.
pub fn net_scale(net: Net, rational: bool, weights: &[f64]) -> f64
    requires p_bound { net.p ≤ 64 }
    requires q_bound { net.q ≤ 64 }
    requires net_reach { rational ≡ true → NetReach (length weights.now) net.columns net.a net.p net.b net.q }
    requires p_bound_2 { net.a + net.p < 18446744073709551616 }
    ensures { result ≡ net_scale rational weights.now net.columns net.a net.b (net.q + 1) (net.p + 1) }
{
    if !rational {
        return 1.0;
    }
    let mut m = 0.0;
    for k in 0..=net.p {
        let i = net.a + k;
        let row = i * net.columns;
        let at = row + net.b;
        m = largest_in(m, weights, at, net.q + 1);
    }
    m
}

// s and a row of the net: q + 1 points from the first on, under x times row j of a table of derivatives.
fn net_row(
    s: Sums,
    o: Vector,
    x: f64,
    j: usize,
    q: usize,
    first: usize,
    scale: f64,
    points: &[f64],
    rational: bool,
    weights: &[f64],
    ders: &[f64; 195],
) -> Sums
    requires j_bound { j ≤ 2 }
    requires q_bound { q ≤ 64 }
    requires q_in_bounds { (first + q) * 3 + 2 < length points.now }
    requires q_in_bounds_2 { rational ≡ true → first + q < length weights.now }
    ensures { result ≡ sums_from s (row_term false points.now rational weights.now scale o first (λ l. mul binary64 x (cell ders.now j l))) (q + 1) }
{
    let mut t = s;
    for l in 0..=q {
        let i = first + l;
        let at = j * 65 + l;
        let n = x * ders[at];
        let w = weight_at(rational, weights, scale, i);
        let c = point_at(points, i);
        t = plus_of(t, term_of(false, o, c, w, n));
    }
    t
}

// The sums over the active part, relative to o, under row i of u's derivatives and row j of v's.
pub fn net_sums(
    i: usize,
    j: usize,
    o: Vector,
    net: Net,
    scale: f64,
    points: &[f64],
    rational: bool,
    weights: &[f64],
    u_ders: &[f64; 195],
    v_ders: &[f64; 195],
) -> Sums
    requires i_bound { i ≤ 2 }
    requires j_bound { j ≤ 2 }
    requires p_bound { net.p ≤ 64 }
    requires q_bound { net.q ≤ 64 }
    requires net_reach { NetReach (length points.now / 3) net.columns net.a net.p net.b net.q }
    requires net_reach_2 { rational ≡ true → NetReach (length weights.now) net.columns net.a net.p net.b net.q }
    requires p_bound_2 { net.a + net.p < 18446744073709551616 }
    ensures { result ≡ net_sums points.now rational weights.now scale o net.columns net.a net.b (cell u_ders.now i) (cell v_ders.now j) (net.q + 1) (net.p + 1) }
{
    let mut s = Sums {
        x: 0.0,
        y: 0.0,
        z: 0.0,
        w: 0.0,
    };
    for k in 0..=net.p {
        let h = net.a + k;
        let row = h * net.columns;
        let first = row + net.b;
        let at = i * 65 + k;
        let x = u_ders[at];
        s = net_row(
            s, o, x, j, net.q, first, scale, points, rational, weights, v_ders,
        );
    }
    s
}
