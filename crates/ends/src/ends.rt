// An interval by its ends, each counted away from 0.
ghost use Rattle.std.specs.Prelude.{◌≡◌, true, false};
ghost use Rattle.std.specs.Float.Ieee.{lt};
ghost use Rattle.std.specs.Float.{inf};
ghost use Rattle.doubles.specs.Neighbour.{next_up};
ghost use Rattle.ends.specs.Ends.{capped_of, step_of, ends_of, interval_by, sum_of};

use interval::Interval;

// The interval [-under, over].
#[derive(Clone, Copy, Debug, PartialEq)]
pub struct Ends {
    pub under: f64,
    pub over: f64,
}

// x, but the largest finite double for all that is not below it.
fn capped(x: f64) -> f64
    ensures { result ≡ capped_of x }
{
    let top = f64::from_bits(0x7fef_ffff_ffff_ffff);
    if x < top { x } else { top }
}

// The double above x. The sum makes +0.0 of -0.0, and leaves every other number as it is.
fn above(x: f64) -> f64
    requires { lt x (inf false) ≡ true }
    ensures { result ≡ next_up x }
{
    let b = f64::to_bits(x + 0.0);
    f64::from_bits(b - 2 * (b / 0x8000_0000_0000_0000) + 1)
}

// The double above x; infinity for a NaN too, so that no test is needed.
pub fn step(x: f64) -> f64
    ensures { result ≡ step_of x }
{
    above(capped(x))
}

pub fn ends_of(i: Interval) -> Ends
    ensures { result ≡ ends_of i }
{
    Ends {
        under: -i.lo(),
        over: i.hi(),
    }
}

// The interval, or the whole line where the ends are none.
pub fn interval_of(e: Ends) -> Interval
    ensures { result ≡ interval_by e }
{
    Interval::new(-e.under, e.over).unwrap_or(Interval::entire())
}

pub fn sum(a: Ends, b: Ends) -> Ends
    ensures { result ≡ sum_of a b }
{
    Ends {
        under: step(a.under + b.under),
        over: step(a.over + b.over),
    }
}
