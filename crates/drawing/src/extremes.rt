// The least and the greatest of one coordinate of some points.
ghost use Rattle.std.specs.Prelude.{cond, ◌≡◌};
ghost use Rattle.std.specs.Float.{inf};
ghost use Rattle.doubles.specs.Neighbour.{fmin, fmax};
ghost use Rattle.drawing.specs.Drawing.{least_of, greatest_of};

use interval::float::{infinity, max, min};
use runs::points::coordinate_at;

// What every number is beyond: the start of a search for the least, or for the greatest where `up`.
fn start(up: bool) -> f64
    ensures { result ≡ inf up }
{
    if up {
        return -infinity();
    }
    infinity()
}

fn outer(up: bool, a: f64, b: f64) -> f64
    ensures { result ≡ cond up (fmax a b) (fmin a b) }
{
    if up {
        return max(a, b);
    }
    min(a, b)
}

// The least of a coordinate, or the greatest where `up`.
pub fn extreme(points: &[f64], k: usize, up: bool) -> f64
    ensures { result ≡ cond up (greatest_of points.now k) (least_of points.now k) }
{
    let mut found = start(up);
    for i in 0..points.len() / 3 {
        found = outer(up, found, coordinate_at(points, i, k));
    }
    found
}
