// What a row holds before it is filled.
ghost use Rattle.std.specs.Prelude.{◌≡◌};
ghost use Rattle.many.specs.Points.{origin as origin_of};

use runs::vector::Vector;

pub fn origin() -> Vector
    ensures { result ≡ origin_of }
{
    Vector {
        x: 0.0,
        y: 0.0,
        z: 0.0,
    }
}
