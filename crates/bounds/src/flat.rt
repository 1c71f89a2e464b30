// The net of a row without derivatives, in a run of eight numbers a point, and de Boor's levels on it.
ghost use Rattle.std.specs.Prelude.{◌≡◌, ℕ, ◌+◌, ◌*◌, ◌≤◌, ◌<◌, length};
ghost use Rattle.std.proofs.lemmas.List.Edits.{sets};
ghost use Rattle.jets.specs.Net.{share_at, deboor_of};
ghost use Rattle.jets.specs.Jet.{parameter_of};
ghost use Rattle.jets.specs.declared.net.Control.{Control};
ghost use Rattle.interval.specs.Ops.{point_of, sub_of};
ghost use Rattle.ends.specs.Ends.{ends_of, times_of};
ghost use Rattle.ends.specs.Flat.{flat_of, flat_net, flat_neighbours};
ghost use Rattle.bounds.specs.Start.{moved_of, control_of, start_at, row_of};
ghost use Rattle.ends.specs.Good.{GoodPoint};
ghost use Rattle.bounds.specs.Levels.{LevelMeets};
ghost use Rattle.bounds.specs.Flat.{flat_at, eight_of, FilledTo, LevelsMeet};

use ends::ends::{Ends, ends_of};
use ends::factor::{Factor, factor_of, is_factor, times};
use ends::flat::{Flat, flat_step};
use interval::Interval;
use knots::refusal::Refusal;
use runs::points::point_at;
use runs::vector::Vector;
use runs::weights::weight_at;

// A range of the parameter of degree `degree` on a span of its knots.
#[derive(Clone, Copy)]
pub struct Within {
    pub degree: usize,
    pub span: usize,
    pub t: Interval,
}

// Point m of the net.
fn flat_at(net: &[f64], m: usize) -> Flat
    requires m_in_bounds { m * 8 + 8 ≤ length net.now }
    requires m_bound { m ≤ 64 }
    ensures { result ≡ flat_at net.now m }
{
    let at = m * 8;
    Flat {
        x: Ends {
            under: net[at],
            over: net[at + 1],
        },
        y: Ends {
            under: net[at + 2],
            over: net[at + 3],
        },
        z: Ends {
            under: net[at + 4],
            over: net[at + 5],
        },
        w: Ends {
            under: net[at + 6],
            over: net[at + 7],
        },
    }
}

// Point m of the net becomes c.
fn put_flat(net: &mut [f64], m: usize, c: Flat)
    requires m_in_bounds { m * 8 + 8 ≤ length net.old }
    requires m_bound { m ≤ 64 }
    ensures { net.new ≡ sets net.old (m * 8) (eight_of c) }
{
    let at = m * 8;
    let x = c.x;
    let y = c.y;
    let z = c.z;
    let w = c.w;
    net[at] = x.under;
    net[at + 1] = x.over;
    net[at + 2] = y.under;
    net[at + 3] = y.over;
    net[at + 4] = z.under;
    net[at + 5] = z.over;
    net[at + 6] = w.under;
    net[at + 7] = w.over;
}

// (p - o) times a factor.
fn flat_moved(p: f64, o: f64, f: Factor) -> Ends
    ensures { result ≡ times_of f (ends_of (sub_of (point_of p) (point_of o))) }
{
    times(f, ends_of(Interval::point(p).sub(Interval::point(o))))
}

// The same for a weight with an end that is 0 or infinite.
fn moved_by(p: f64, o: f64, weight: Interval) -> Ends
    ensures { result ≡ ends_of (moved_of p o weight).v }
{
    ends_of(Interval::point(p).sub(Interval::point(o)).mul(weight))
}

fn flat_control(p: Vector, o: Vector, w: f64, r: Interval) -> Flat
    ensures { result ≡ flat_of (control_of p o w r) }
{
    let q = Interval::point(w).mul(r);
    let f = factor_of(q);
    if is_factor(f) {
        Flat {
            x: flat_moved(p.x, o.x, f),
            y: flat_moved(p.y, o.y, f),
            z: flat_moved(p.z, o.z, f),
            w: ends_of(q),
        }
    } else {
        Flat {
            x: moved_by(p.x, o.x, q),
            y: moved_by(p.y, o.y, q),
            z: moved_by(p.z, o.z, q),
            w: ends_of(q),
        }
    }
}

// The net of the row at base.
fn fill_flat(
    points: &[f64],
    weights: &[f64],
    rational: bool,
    base: usize,
    degree: usize,
    o: Vector,
    r: Interval,
    net: &mut [f64],
)
    requires degree_bound { degree ≤ 64 }
    requires degree_bound_2 { base + degree < 2097152 }
    requires degree_in_bounds { degree * 8 + 8 ≤ length net.old }
    ensures net_len_unchanged { length net.new ≡ length net.old }
    ensures filled_to { FilledTo (λ m. flat_of (start_at points.now weights.now rational base o r m)) (degree + 1) net.new }
{
    for m in 0..=degree {
        let i = base + m;
        let c = flat_control(point_at(points, i), o, weight_at(rational, weights, i), r);
        put_flat(net, m, c);
    }
}

// Two neighbours under the share of a place.
fn flat_step_at(
    along: Within,
    knots: &[f64],
    level: usize,
    j: usize,
    a: Flat,
    b: Flat,
) -> Result<Flat, Refusal>
    requires degree_le_span { along.degree ≤ along.span }
    requires degree_in_bounds { along.span + along.degree < length knots.now }
    requires level_nonzero { 0 < level }
    requires level_le_j { level ≤ j }
    requires j_le_degree { j ≤ along.degree }
    ensures { result ≡ flat_neighbours (share_at knots.now along.degree along.span (parameter_of along.t) level j) a b }
{
    let low = along.span - along.degree + j;
    let high = along.span + j - level + 1;
    flat_step(along.t, knots[low], knots[high], a, b)
}

// One level of a net, from the degree down since a point takes the one before it as the level found it.
fn flat_level(knots: &[f64], along: Within, level: usize, net: &mut [f64]) -> Result<(), Refusal>
    requires degree_bound { along.degree ≤ 64 }
    requires degree_le_span { along.degree ≤ along.span }
    requires degree_in_bounds { along.span + along.degree < length knots.now }
    requires level_nonzero { 0 < level }
    requires level_le_degree { level ≤ along.degree }
    requires degree_in_bounds_2 { along.degree * 8 + 8 ≤ length net.old }
    ensures { (c : ℕ → Control) → ((m : ℕ) → m ≤ along.degree → GoodPoint (c m)) → LevelMeets knots.now along.degree along.span (parameter_of along.t) flat_of c level (flat_at net.old) (flat_at net.new) result }
{
    for j in (level..=along.degree).rev() {
        let c = flat_step_at(along, knots, level, j, flat_at(net, j - 1), flat_at(net, j))?;
        put_flat(net, j, c);
    }
    Ok(())
}

// All levels on a net that was filled.
fn flat_levels(knots: &[f64], along: Within, net: &mut [f64]) -> Result<Flat, Refusal>
    requires degree_bound { along.degree ≤ 64 }
    requires degree_le_span { along.degree ≤ along.span }
    requires degree_in_bounds { along.span + along.degree < length knots.now }
    requires degree_in_bounds_2 { along.degree * 8 + 8 ≤ length net.old }
    ensures { LevelsMeet knots.now along.degree along.span (parameter_of along.t) net.old result }
{
    for level in 1..=along.degree {
        flat_level(knots, along, level, net)?;
    }
    Ok(flat_at(net, along.degree))
}

// The net of a row, and all levels on it, in a lent run.
fn flat_by(
    points: &[f64],
    weights: &[f64],
    rational: bool,
    base: usize,
    o: Vector,
    r: Interval,
    knots: &[f64],
    along: Within,
    net: &mut [f64],
) -> Result<Flat, Refusal>
    requires degree_bound { along.degree ≤ 64 }
    requires degree_le_span { along.degree ≤ along.span }
    requires degree_in_bounds { along.span + along.degree < length knots.now }
    requires degree_bound_2 { base + along.degree < 2097152 }
    requires degree_in_bounds_2 { along.degree * 8 + 8 ≤ length net.old }
    ensures { result ≡ flat_net (deboor_of knots.now along.degree along.span (parameter_of along.t) (start_at points.now weights.now rational base o r)) }
{
    fill_flat(points, weights, rational, base, along.degree, o, r, net);
    flat_levels(knots, along, net)
}

// A run for degrees up to 7, which is cheap to clear.
fn flat_small(
    points: &[f64],
    weights: &[f64],
    rational: bool,
    base: usize,
    o: Vector,
    r: Interval,
    knots: &[f64],
    along: Within,
) -> Result<Flat, Refusal>
    requires degree_bound { along.degree ≤ 7 }
    requires degree_le_span { along.degree ≤ along.span }
    requires degree_in_bounds { along.span + along.degree < length knots.now }
    requires degree_bound_2 { base + along.degree < 2097152 }
    ensures { result ≡ flat_net (deboor_of knots.now along.degree along.span (parameter_of along.t) (start_at points.now weights.now rational base o r)) }
{
    let mut net = [0.0; 64];
    flat_by(
        points, weights, rational, base, o, r, knots, along, &mut net,
    )
}

// A run for all degrees.
fn flat_large(
    points: &[f64],
    weights: &[f64],
    rational: bool,
    base: usize,
    o: Vector,
    r: Interval,
    knots: &[f64],
    along: Within,
) -> Result<Flat, Refusal>
    requires degree_bound { along.degree ≤ 64 }
    requires degree_le_span { along.degree ≤ along.span }
    requires degree_in_bounds { along.span + along.degree < length knots.now }
    requires degree_bound_2 { base + along.degree < 2097152 }
    ensures { result ≡ flat_net (deboor_of knots.now along.degree along.span (parameter_of along.t) (start_at points.now weights.now rational base o r)) }
{
    let mut net = [0.0; 520];
    flat_by(
        points, weights, rational, base, o, r, knots, along, &mut net,
    )
}

// All levels on the row at base, its weights over the scale.
pub fn flat_row(
    points: &[f64],
    weights: &[f64],
    rational: bool,
    base: usize,
    o: Vector,
    scale: f64,
    knots: &[f64],
    along: Within,
) -> Result<Flat, Refusal>
    requires degree_bound { along.degree ≤ 64 }
    requires degree_le_span { along.degree ≤ along.span }
    requires degree_in_bounds { along.span + along.degree < length knots.now }
    requires degree_bound_2 { base + along.degree < 2097152 }
    ensures { result ≡ flat_net (row_of points.now weights.now rational base o scale knots.now along.degree along.span (parameter_of along.t)) }
{
    let r = interval::reciprocal(Interval::point(scale))?;
    if along.degree <= 7 {
        flat_small(points, weights, rational, base, o, r, knots, along)
    } else {
        flat_large(points, weights, rational, base, o, r, knots, along)
    }
}
