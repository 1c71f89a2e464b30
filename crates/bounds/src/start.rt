// The net that a bound starts with: weights over the largest, and points relative to the first.
ghost use Rattle.std.specs.Prelude.{◌≡◌, ◌+◌, ◌≤◌, ◌<◌, length};
ghost use Rattle.jets.specs.Net.{deboor_of};
ghost use Rattle.runs.specs.Weight.{weight_at};
ghost use Rattle.bounds.specs.Start.{extremes_of, no_extremes, range_of, weights_of, moved_of, control_of, start_at, row_of};

use crate::levels::{Along, all_levels};
use interval::Interval;
use interval::float::{infinity, max, min};
use jets::jet::Jet;
use jets::net::{Control, zero_control};
use knots::refusal::{Reason, Refusal, refuse};
use runs::points::point_at;
use runs::vector::Vector;
use runs::weights::weight_at;

#[derive(Clone, Copy, Debug, PartialEq)]
pub struct Extremes {
    pub least: f64,
    pub most: f64,
}

// The smallest and the largest of two numbers and some weights.
pub fn extreme_weights(
    from: Extremes,
    rational: bool,
    weights: &[f64],
    first: usize,
    count: usize,
) -> Extremes
    requires { first + count < 2097152 }
    ensures { result ≡ extremes_of from (λ m. weight_at rational weights.now (first + m)) count }
{
    let mut least = from.least;
    let mut most = from.most;
    for m in 0..count {
        let w = weight_at(rational, weights, first + m);
        least = min(least, w);
        most = max(most, w);
    }
    Extremes { least, most }
}

// What the extremes of no weights are.
pub fn no_extremes() -> Extremes
    ensures { result ≡ no_extremes }
{
    Extremes {
        least: infinity(),
        most: 0.0,
    }
}

// The scale and the enclosure of the weight.
#[derive(Clone, Copy)]
pub struct Weights {
    pub scale: f64,
    pub bound: Interval,
}

pub fn range_of(least: f64, most: f64) -> Result<Weights, Refusal>
    ensures { result ≡ range_of least most }
{
    let q = interval::divide(Interval::point(least), Interval::point(most))?;
    let lo = q.lo();
    if lo <= 0.0 {
        return Err(refuse(Reason::WeightRatioLow));
    }
    let Some(bound) = Interval::new(lo, 1.0) else {
        return Err(refuse(Reason::QuotientNone));
    };
    Ok(Weights { scale: most, bound })
}

pub fn weights_of(
    rational: bool,
    weights: &[f64],
    first: usize,
    count: usize,
) -> Result<Weights, Refusal>
    requires { first + count < 2097152 }
    ensures { result ≡ weights_of (λ m. weight_at rational weights.now (first + m)) count }
{
    let found = extreme_weights(no_extremes(), rational, weights, first, count);
    range_of(found.least, found.most)
}

fn moved(p: f64, o: f64, weight: Interval) -> Jet
    ensures { result ≡ moved_of p o weight }
{
    Jet::constant(Interval::point(p).sub(Interval::point(o)).mul(weight))
}

fn control(p: Vector, o: Vector, w: f64, r: Interval) -> Control
    ensures { result ≡ control_of p o w r }
{
    let q = Interval::point(w).mul(r);
    Control {
        x: moved(p.x, o.x, q),
        y: moved(p.y, o.y, q),
        z: moved(p.z, o.z, q),
        w: Jet::constant(q),
    }
}

// The net of a row, and all levels on it.
fn row_by(
    points: &[f64],
    weights: &[f64],
    rational: bool,
    base: usize,
    o: Vector,
    r: Interval,
    knots: &[f64],
    along: Along,
) -> Result<Control, Refusal>
    requires degree_bound { along.degree ≤ 64 }
    requires degree_le_span { along.degree ≤ along.span }
    requires degree_in_bounds { along.span + along.degree < length knots.now }
    requires degree_bound_2 { base + along.degree < 2097152 }
    ensures { result ≡ deboor_of knots.now along.degree along.span along.t (start_at points.now weights.now rational base o r) }
{
    let mut net = [zero_control(); 65];
    for m in 0..=along.degree {
        let i = base + m;
        net[m] = control(point_at(points, i), o, weight_at(rational, weights, i), r);
    }
    all_levels(along, knots, &mut net)
}

// All levels on the row at base, its weights over the scale.
pub fn row_of(
    points: &[f64],
    weights: &[f64],
    rational: bool,
    base: usize,
    o: Vector,
    scale: f64,
    knots: &[f64],
    along: Along,
) -> Result<Control, Refusal>
    requires degree_bound { along.degree ≤ 64 }
    requires degree_le_span { along.degree ≤ along.span }
    requires degree_in_bounds { along.span + along.degree < length knots.now }
    requires degree_bound_2 { base + along.degree < 2097152 }
    ensures { result ≡ row_of points.now weights.now rational base o scale knots.now along.degree along.span along.t }
{
    let r = interval::reciprocal(Interval::point(scale))?;
    row_by(points, weights, rational, base, o, r, knots, along)
}
