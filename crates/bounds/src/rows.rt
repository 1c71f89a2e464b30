// Bounds of a surface on one rectangle of nonempty spans.
ghost use Rattle.std.specs.Prelude.{◌≡◌, ◌+◌, ◌-◌, ◌*◌, ◌≤◌, ◌<◌, length};
ghost use Rattle.jets.specs.Net.{filled_of};
ghost use Rattle.runs.specs.Weight.{weight_at};
ghost use Rattle.bounds.specs.Start.{row_of, range_of};
ghost use Rattle.bounds.specs.Surface.{max_rows, min_rows, net_extremes, RowsFit, SpansFit, spans_bound};

use crate::levels::{Along, all_levels};
use crate::start::{Extremes, Weights, extreme_weights, no_extremes, range_of, row_of};
use interval::Interval;
use jets::cartesian::{Bounds, cartesian_of};
use jets::jet::{parameter, second};
use jets::net::{Control, zero_control};
use knots::refusal::{Reason, Refusal, refuse};
use runs::points::point_at;
use runs::vector::Vector;

// One parameter of a surface: its degree, its count of points and a closed range.
#[derive(Clone, Copy, Debug, PartialEq)]
pub struct Side {
    pub degree: usize,
    pub count: usize,
    pub lo: f64,
    pub hi: f64,
}

// The smallest and the largest of a net of weights, row by row.
fn net_extremes(
    rational: bool,
    weights: &[f64],
    row: usize,
    rows: usize,
    nv: usize,
    col: usize,
    cols: usize,
) -> Extremes
    requires { RowsFit row rows nv col cols }
    ensures { result ≡ net_extremes (λ m k. weight_at rational weights.now ((row + m) * nv + col + k)) cols rows }
{
    let mut found = no_extremes();
    for m in 0..rows {
        found = extreme_weights(found, rational, weights, (row + m) * nv + col, cols);
    }
    found
}

// The rows along v, and all levels along u on the column of them.
fn rows_of(
    points: &[f64],
    weights: &[f64],
    rational: bool,
    row: usize,
    nv: usize,
    col: usize,
    o: Vector,
    scale: f64,
    vk: &[f64],
    v: Along,
    uk: &[f64],
    u: Along,
) -> Result<Control, Refusal>
    requires degree_bound { u.degree ≤ 64 }
    requires degree_le_span { u.degree ≤ u.span }
    requires degree_in_bounds { u.span + u.degree < length uk.now }
    requires degree_bound_2 { v.degree ≤ 64 }
    requires degree_le_span_2 { v.degree ≤ v.span }
    requires degree_in_bounds_2 { v.span + v.degree < length vk.now }
    requires rows_fit { RowsFit row (u.degree + 1) nv col (v.degree + 1) }
    ensures { result ≡ filled_of uk.now u.degree u.span u.t (λ m. row_of points.now weights.now rational ((row + m) * nv + col) o scale vk.now v.degree v.span v.t) }
{
    let mut net = [zero_control(); 65];
    for m in 0..=u.degree {
        let base = (row + m) * nv + col;
        net[m] = row_of(points, weights, rational, base, o, scale, vk, v)?;
    }
    all_levels(u, uk, &mut net)
}

// The scale and the enclosure of the active weights.
fn weights_in(
    rational: bool,
    weights: &[f64],
    row: usize,
    rows: usize,
    nv: usize,
    col: usize,
    cols: usize,
) -> Result<Weights, Refusal>
    requires { RowsFit row rows nv col cols }
    ensures { result ≡ range_of (min_rows (λ m k. weight_at rational weights.now ((row + m) * nv + col + k)) cols rows) (max_rows (λ m k. weight_at rational weights.now ((row + m) * nv + col + k)) cols rows) }
{
    let found = net_extremes(rational, weights, row, rows, nv, col, cols);
    range_of(found.least, found.most)
}

// The bounds on spans us and vs.
pub fn on_spans(
    u: Side,
    v: Side,
    us: usize,
    vs: usize,
    uk: &[f64],
    vk: &[f64],
    points: &[f64],
    weights: &[f64],
    rational: bool,
) -> Result<Bounds, Refusal>
    requires { SpansFit u.degree v.degree us vs (length uk.now) (length vk.now) v.count }
    ensures { result ≡ spans_bound u.degree v.degree us vs uk.now vk.now v.count points.now weights.now rational u.lo u.hi v.lo v.hi }
{
    let row = us - u.degree;
    let col = vs - v.degree;
    let nv = v.count;
    let w = weights_in(rational, weights, row, u.degree + 1, nv, col, v.degree + 1)?;
    let Some(iv) = Interval::new(v.lo, v.hi) else {
        return Err(refuse(Reason::RangeBad));
    };
    let Some(iu) = Interval::new(u.lo, u.hi) else {
        return Err(refuse(Reason::RangeBad));
    };
    let o = point_at(points, row * nv + col);
    let along_v = Along {
        degree: v.degree,
        span: vs,
        t: second(iv),
    };
    let along_u = Along {
        degree: u.degree,
        span: us,
        t: parameter(iu),
    };
    let net = rows_of(
        points, weights, rational, row, nv, col, o, w.scale, vk, along_v, uk, along_u,
    );
    cartesian_of(net, o, w.bound)
}
