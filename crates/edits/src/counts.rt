// What is found by a walk over one run.
ghost use Rattle.std.specs.Prelude.{cond, ◌≡◌, ◌-◌, length};
ghost use Rattle.std.specs.Float.Ieee.{eq, lt};
ghost use Rattle.doubles.specs.Run.{at};
ghost use Rattle.edits.specs.Rows.{given};
ghost use Rattle.edits.specs.Counts.{bit, count_below, multiplicity_of, below_of, all_equal};

// 1 for yes.
pub fn bit_of(yes: bool) -> usize
    ensures { result ≡ bit yes }
{
    if yes { 1 } else { 0 }
}

// x equals t as a number, or is below it.
fn passes(equal: bool, x: f64, t: f64) -> bool
    ensures { result ≡ cond equal (eq x t) (lt x t) }
{
    if equal {
        return x == t;
    }
    x < t
}

// How many knots equal t, or how many are below it.
fn count(equal: bool, knots: &[f64], t: f64) -> usize
    ensures { result ≡ count_below (λ j. cond equal (eq (at knots.now j) t) (lt (at knots.now j) t)) (length knots.now) }
{
    let mut n = 0usize;
    for x in knots {
        n += bit_of(passes(equal, *x, t));
    }
    n
}

// How many knots equal t as numbers: -0.0 and 0.0 are one knot.
pub fn multiplicity(knots: &[f64], t: f64) -> usize
    ensures { result ≡ multiplicity_of knots.now t }
{
    count(true, knots, t)
}

// How many knots are below t: the first place whose knot is not, among knots in order.
pub fn below(knots: &[f64], t: f64) -> usize
    ensures { result ≡ below_of knots.now t }
{
    count(false, knots, t)
}

// How often t is missing for it to stand as many times as is asked.
pub fn missing(times: usize, knots: &[f64], t: f64) -> usize
    ensures { result ≡ times - multiplicity_of knots.now t }
{
    let n = multiplicity(knots, t);
    if n < times { times - n } else { 0 }
}

// Every number of the run equals x as a number.
pub fn all_equal(xs: &[f64], x: f64) -> bool
    ensures { result ≡ all_equal xs.now x }
{
    xs.iter().all(|y| *y == x)
}

// How many weights n points have.
pub fn given_count(rational: bool, n: usize) -> usize
    ensures { result ≡ given rational n }
{
    if rational { n } else { 0 }
}
