// A run at the front of another, and +0.0 behind it.
ghost use Rattle.std.specs.Prelude.{◌≡◌, ◌++◌, ◌-◌, ◌≤◌, length, take, drop};
ghost use Rattle.knots.specs.Clear.{zeros};
ghost use Rattle.runs.specs.Lent.{padded};

// The numbers from a place on become +0.0.
pub fn clear_from(xs: &mut [f64], from: usize)
    ensures { xs.new ≡ take from xs.old ++ zeros (length xs.old - from) }
{
    if from < xs.len() {
        xs[from..].fill(0.0);
    }
}

// The first n numbers of a run go to the front of another.
fn copy_front(n: usize, xs: &[f64], out: &mut [f64])
    requires { (n ≤ length xs.now) × (n ≤ length out.old) }
    ensures { out.new ≡ take n xs.now ++ drop n out.old }
{
    for i in 0..n {
        out[i] = xs[i];
    }
}

// A run goes to the front of another as far as that has room, and +0.0 behind it.
pub fn copy_run(xs: &[f64], out: &mut [f64])
    ensures { out.new ≡ padded (length out.old) (take (length out.old) xs.now) }
{
    let n = out.len().min(xs.len());
    copy_front(n, xs, out);
    clear_from(out, n);
}
