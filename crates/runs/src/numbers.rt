// One number of a run, read and stored.
ghost use Rattle.std.specs.Prelude.{◌≡◌, set};
ghost use Rattle.doubles.specs.Run.{at};

// Number i, and NaN outside.
pub fn number_at(xs: &[f64], i: usize) -> f64
    ensures { result ≡ at xs.now i }
{
    if i < xs.len() {
        return xs[i];
    }
    0.0 / 0.0
}

// Number i becomes x; outside nothing is stored.
pub fn put_number(xs: &mut [f64], i: usize, x: f64)
    ensures { xs.new ≡ set xs.old i x }
{
    if i < xs.len() {
        xs[i] = x;
    }
}
