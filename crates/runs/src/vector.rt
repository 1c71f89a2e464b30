// A point or a derivative, coordinate by coordinate.
ghost use Rattle.std.specs.Prelude.{◌≡◌};
ghost use Rattle.runs.specs.Point.{finite_vector};

use interval::float::is_finite;

#[derive(Clone, Copy, Debug, PartialEq)]
pub struct Vector {
    pub x: f64,
    pub y: f64,
    pub z: f64,
}

// None of the three is a NaN or an infinity.
pub fn finite_vector(v: Vector) -> bool
    ensures { result ≡ finite_vector v }
{
    if is_finite(v.x) {
        if is_finite(v.y) {
            return is_finite(v.z);
        }
    }
    false
}
