// Sums of four numbers at once.
ghost use Rattle.std.specs.Prelude.{◌≡◌};
ghost use Rattle.evaluate.specs.Controls.{plus};

// Sums over active points: points relative to a reference, and weights.
#[derive(Clone, Copy, Debug, PartialEq)]
pub struct Sums {
    pub x: f64,
    pub y: f64,
    pub z: f64,
    pub w: f64,
}

pub fn plus_of(a: Sums, b: Sums) -> Sums
    ensures { result ≡ plus a b }
{
    Sums {
        x: a.x + b.x,
        y: a.y + b.y,
        z: a.z + b.z,
        w: a.w + b.w,
    }
}
