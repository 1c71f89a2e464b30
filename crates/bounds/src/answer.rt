// What a bound answers.
ghost use Rattle.std.specs.Prelude.{◌≡◌};
ghost use Rattle.bounds.specs.Answer.{triple_of, bounds_of, bounded_of, point_bounded_of};

use interval::Interval;
use jets::cartesian::Bounds;
use knots::refusal::Refusal;

// An interval for each coordinate.
#[derive(Clone, Copy)]
pub struct Triple {
    pub x: Interval,
    pub y: Interval,
    pub z: Interval,
}

// Enclosures of the point and of its derivatives along u and v. A curve's dv encloses 0.
#[derive(Clone, Copy)]
pub struct NurbsBounds {
    pub point: Triple,
    pub du: Triple,
    pub dv: Triple,
}

fn triple_of(x: Interval, y: Interval, z: Interval) -> Triple
    ensures { result ≡ triple_of x y z }
{
    Triple { x, y, z }
}

fn bounds_of(b: Bounds) -> NurbsBounds
    ensures { result ≡ bounds_of b }
{
    let x = b.x;
    let y = b.y;
    let z = b.z;
    let point = triple_of(x.v, y.v, z.v);
    let du = triple_of(x.du, y.du, z.du);
    let dv = triple_of(x.dv, y.dv, z.dv);
    NurbsBounds { point, du, dv }
}

// The point's three intervals, or the refusal, which is one already.
pub fn point_answer(a: Result<Triple, Refusal>) -> Result<Triple, Refusal>
    ensures { result ≡ point_bounded_of a }
{
    a
}

// The same bounds by point and derivatives, and not by coordinate, or the refusal.
pub fn answer_of(a: Result<Bounds, Refusal>) -> Result<NurbsBounds, Refusal>
    ensures { result ≡ bounded_of a }
{
    Ok(bounds_of(a?))
}
