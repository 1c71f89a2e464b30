// A vector's numbers from any place of a run on.
ghost use Rattle.std.specs.Prelude.{◌≡◌};
ghost use Rattle.runs.specs.Point.{stored_three};

use crate::numbers::put_number;
use crate::vector::Vector;

// Three numbers from place `at` on become v's; those outside the run are not stored.
pub fn store_vector(out: &mut [f64], at: usize, v: Vector)
    ensures { out.new ≡ stored_three out.old at v }
{
    if at < out.len() {
        put_number(out, at, v.x);
        put_number(out, at + 1, v.y);
        put_number(out, at + 2, v.z);
    }
}
