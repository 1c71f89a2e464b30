// The ends of intervals from any place of a run on, low before high.
ghost use Rattle.std.specs.Prelude.{◌≡◌};
ghost use Rattle.bounds.specs.Numbers.{stored_two, stored_six};

use crate::answer::Triple;
use interval::Interval;
use runs::numbers::put_number;

// The two ends from place `at` on; those outside the run are not stored.
fn store_interval(out: &mut [f64], at: usize, i: Interval)
    ensures { out.new ≡ stored_two out.old at i }
{
    if at < out.len() {
        put_number(out, at, i.lo());
        put_number(out, at + 1, i.hi());
    }
}

// The six ends from place `at` on, x before y before z; those outside the run are not stored.
pub fn store_triple(out: &mut [f64], at: usize, t: Triple)
    ensures { out.new ≡ stored_six out.old at t }
{
    if at < out.len() {
        store_interval(out, at, t.x);
        store_interval(out, at + 2, t.y);
        store_interval(out, at + 4, t.z);
    }
}
