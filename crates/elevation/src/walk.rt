// What is asked of the breaks of a clamped curve: how many there are, and which are full.
ghost use Rattle.std.specs.Prelude.{◌≡◌, ◌<◌, ◌≤◌, length};
ghost use Rattle.elevation.specs.Breaks.{breaks_of, is_full};
ghost use Rattle.elevation.specs.Passes.{BreaksCounted};

use crate::inner::Breaks;
use edits::counts::multiplicity;

// How many breaks there are, and how many of them are full.
#[derive(Clone, Copy, Debug, PartialEq, Eq)]
pub struct BreakCount {
    pub breaks: usize,
    pub full: usize,
}

// A break is full where it stands degree + 1 times.
pub fn is_full(p: usize, knots: &[f64], t: f64) -> bool
    ensures { result ≡ is_full p knots.now t }
{
    multiplicity(knots, t) > p
}

// How many breaks there are: one look at each knot, where those that are full take a look at all knots for each break.
pub fn break_count(p: usize, n: usize, knots: &[f64]) -> usize
    requires { (p < n) × (n ≤ length knots.now) }
    ensures { result ≡ length (breaks_of p n knots.now) }
{
    Breaks::new(p, n, knots).count()
}

// How many breaks there are, and how many of them are full.
pub fn count_breaks(p: usize, n: usize, knots: &[f64]) -> BreakCount
    requires { (p < n) × (n ≤ length knots.now) }
    ensures { BreaksCounted p knots.now (breaks_of p n knots.now) result.breaks result.full }
{
    let breaks = break_count(p, n, knots);
    let full = Breaks::new(p, n, knots)
        .filter(|t| is_full(p, knots, *t))
        .count();
    BreakCount { breaks, full }
}
