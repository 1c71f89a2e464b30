// From the homogeneous net to Cartesian bounds.
ghost use Rattle.std.specs.Prelude.{◌≡◌};
ghost use Rattle.jets.specs.Cartesian.{coordinate_of, cartesian_of, net_by};

use crate::jet::Jet;
use crate::net::Control;
use interval::Interval;
use interval::float::{max, min};
use knots::refusal::{Reason, Refusal, refuse};
use runs::vector::Vector;

// Enclosures of the three coordinates, each with its derivatives.
#[derive(Clone, Copy)]
pub struct Bounds {
    pub x: Jet,
    pub y: Jet,
    pub z: Jet,
}

// One coordinate, r the weight's reciprocal.
fn coordinate(h: Jet, weight: Jet, r: Interval, o: f64) -> Jet
    ensures { result ≡ coordinate_of h weight r o }
{
    let q = h.v.mul(r);
    Jet {
        v: q.add(Interval::point(o)),
        du: h.du.sub(q.mul(weight.du)).mul(r),
        dv: h.dv.sub(q.mul(weight.dv)).mul(r),
    }
}

// The bounds by a point: its weight is cut with its other enclosure before it divides.
fn cartesian(h: Control, o: Vector, bound: Interval) -> Result<Bounds, Refusal>
    ensures { result ≡ cartesian_of h o bound }
{
    let weight = h.w;
    let own = weight.v;
    let lo = max(own.lo(), bound.lo());
    let hi = min(own.hi(), bound.hi());
    let Some(w) = Interval::new(lo, hi) else {
        return Err(refuse(Reason::WeightsApart));
    };
    let r = interval::reciprocal(w)?;
    Ok(Bounds {
        x: coordinate(h.x, weight, r, o.x),
        y: coordinate(h.y, weight, r, o.y),
        z: coordinate(h.z, weight, r, o.z),
    })
}

// The bounds by the net's last point, or the net's refusal.
pub fn cartesian_of(
    a: Result<Control, Refusal>,
    o: Vector,
    bound: Interval,
) -> Result<Bounds, Refusal>
    ensures { result ≡ net_by o bound a }
{
    cartesian(a?, o, bound)
}
