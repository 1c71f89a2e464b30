// A knot put between others.
ghost use Rattle.std.specs.Prelude.{◌≡◌, ◌++◌, ◌+◌, ◌<◌, length, drop};
ghost use Rattle.runs.specs.Tabulate.{tabulate};
ghost use Rattle.insertion.specs.Insert.{knot_at};

// The knot t goes after place k of m knots, and the later ones go one place up.
pub fn put_knot(knots: &mut [f64], k: usize, m: usize, t: f64)
    requires { (k < m) × (m < length knots.old) }
    ensures { knots.new ≡ tabulate (m + 1) (knot_at k t knots.old) ++ drop (m + 1) knots.old }
{
    let mut carry = t;
    for i in k + 1..m + 1 {
        let next = knots[i];
        knots[i] = carry;
        carry = next;
    }
}
