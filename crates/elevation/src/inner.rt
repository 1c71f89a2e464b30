// The breaks of a clamped curve: its distinct inner knots, found by a walk over the inner knots.
ghost use Rattle.std.specs.Prelude.{◌≡◌, ◌<◌, ◌≤◌, length};

// Those from place `from` on are still to come.
#[derive(Drop)]
pub struct Breaks<'a> {
    knots: &'a [f64],
    from: usize,
    n: usize,
    ghost inner: { (0 < from) × (from ≤ n) × (n ≤ length knots.now) },
}

impl<'a> Breaks<'a> {
    ghost use Rattle.elevation.specs.Breaks.{breaks_of};
    ghost use Rattle.elevation.specs.Passes.{breaks_left};

    pub fn new(p: usize, n: usize, knots: &'a [f64]) -> Breaks<'a>
        requires { (p < n) × (n ≤ length knots.now) }
        ensures { breaks_left result ≡ breaks_of p n knots.now }
    {
        Breaks {
            knots,
            from: p + 1,
            n,
        }
    }
}

impl<'a> Iterator for Breaks<'a> {
    ghost use Rattle.std.specs.Iterator.{YieldsFirst, item_count};
    ghost use Rattle.elevation.specs.Passes.{breaks_left};

    type Item = f64;

    ghost next_gives = { YieldsFirst breaks_left };

    ghost remaining = { item_count breaks_left };

    // The next knot that does not equal the one before it: -0.0 and 0.0 are one knot.
    fn next(&mut self) -> Option<f64> {
        for k in self.from..self.n {
            if !(self.knots[k - 1] == self.knots[k]) {
                self.from = k + 1;
                return Some(self.knots[k]);
            }
        }
        self.from = self.n;
        None
    }
}
