// Basis functions.
ghost use Rattle.std.specs.Prelude.{◌+◌, ◌*◌, ◌<◌, ◌≤◌, length};
ghost use Rattle.doubles.specs.Run.{at};
ghost use Rattle.basis.specs.Basis.{ColumnDone, TableDone, left_of, right_of};

// One column of the table of basis functions and one row of knot widths.
fn column(j: usize, left: &[f64; 65], right: &[f64; 65], ndu: &mut [f64])
    requires j_nonzero { 0 < j }
    requires j_bound { j ≤ 64 }
    requires j_in_bounds { j * 65 + j < length ndu.old }
    ensures { ColumnDone j (λ k. at left.now k) (λ k. at right.now k) ndu.old ndu.new }
{
    let mut saved = 0.0;
    for r in 0..j {
        let i = r + 1;
        let k = j - r;
        let a = right[i];
        let b = left[k];
        let width = a + b;
        let low = j * 65 + r;
        let up = r * 65 + j;
        let past = up - 1;
        ndu[low] = width;
        let share = ndu[past] / width;
        ndu[up] = saved + a * share;
        saved = b * share;
    }
    let end = j * 65 + j;
    ndu[end] = saved;
}

// The table of basis functions of degree up to p at u in a span.
pub fn table(span: usize, u: f64, p: usize, knots: &[f64], ndu: &mut [f64])
    requires p_bound { p ≤ 64 }
    requires p_le_span { p ≤ span }
    requires p_in_bounds { span + p < length knots.now }
    requires p_in_bounds_2 { p * 65 + p < length ndu.old }
    ensures { TableDone (p + 1) (left_of knots.now span u) (right_of knots.now span u) ndu.new }
{
    let mut left = [0.0; 65];
    let mut right = [0.0; 65];
    ndu[0] = 1.0;
    for j in 1..=p {
        let a = span + 1 - j;
        let b = span + j;
        left[j] = u - knots[a];
        right[j] = knots[b] - u;
        column(j, &left, &right, ndu);
    }
}
