// Weights, where a curve has them.
ghost use Rattle.std.specs.Prelude.{◌≡◌, cond, set};
ghost use Rattle.runs.specs.Weight.{weight_at};

use crate::numbers::{number_at, put_number};

// Weight i, and 1.0 where none are given.
pub fn weight_at(rational: bool, weights: &[f64], i: usize) -> f64
    ensures { result ≡ weight_at rational weights.now i }
{
    if rational {
        return number_at(weights, i);
    }
    1.0
}

// A weight is stored where the curve has weights.
pub fn put_weight(weights: &mut [f64], rational: bool, i: usize, w: f64)
    ensures { weights.new ≡ cond rational (set weights.old i w) weights.old }
{
    if rational {
        put_number(weights, i, w);
    }
}
