// One control of a curve in homogeneous form. A share or a scaled weight is worked out once for its four numbers.
ghost use Rattle.std.specs.Prelude.{◌≡◌};
ghost use Rattle.edits.specs.Control.{lift_of, is_lifted, is_blended, share_of, blend_of, lower_of};

use interval::float::is_finite;
use runs::vector::Vector;

// A point times its weight, and the weight.
#[derive(Clone, Copy, Debug, PartialEq)]
pub struct Control {
    pub x: f64,
    pub y: f64,
    pub z: f64,
    pub w: f64,
}

// The control of a point q relative to o. Relative to a point of the curve no large coordinates are subtracted later.
pub fn lift_of(o: Vector, q: Vector, w: f64) -> Control
    ensures { result ≡ lift_of o q w }
{
    Control {
        x: (q.x - o.x) * w,
        y: (q.y - o.y) * w,
        z: (q.z - o.z) * w,
        w,
    }
}

// What refusal 19 asks: finite coordinates, and a weight that is not at or below 0.
pub fn is_lifted(q: Control) -> bool
    ensures { result ≡ is_lifted q }
{
    if !is_finite(q.x) {
        return false;
    }
    if !is_finite(q.y) {
        return false;
    }
    if !is_finite(q.z) {
        return false;
    }
    !(q.w <= 0.0)
}

// What refusal 20 asks: the weight is finite too.
pub fn is_blended(q: Control) -> bool
    ensures { result ≡ is_blended q }
{
    if !is_lifted(q) {
        return false;
    }
    is_finite(q.w)
}

// How far t has come from the knot a to the knot b.
pub fn share_of(t: f64, a: f64, b: f64) -> f64
    ensures { result ≡ share_of t a b }
{
    (t - a) / (b - a)
}

// The control between a and b at the share s.
pub fn blend_of(a: Control, b: Control, s: f64) -> Control
    ensures { result ≡ blend_of a b s }
{
    let m = 1.0 - s;
    Control {
        x: a.x * m + b.x * s,
        y: a.y * m + b.y * s,
        z: a.z * m + b.z * s,
        w: a.w * m + b.w * s,
    }
}

// The point of a control that is relative to o.
pub fn lower_of(o: Vector, q: Control) -> Vector
    ensures { result ≡ lower_of o q }
{
    Vector {
        x: o.x + q.x / q.w,
        y: o.y + q.y / q.w,
        z: o.z + q.z / q.w,
    }
}
