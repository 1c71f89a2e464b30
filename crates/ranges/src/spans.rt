// The spans of a run of knots that contain a closed range.
ghost use Rattle.std.specs.Prelude.{◌≡◌, ◌+◌, ◌≤◌, ◌<◌, length};
ghost use Rattle.ranges.specs.Range.{in_span, span_over, taken_span};

pub fn in_span(knots: &[f64], lo: f64, hi: f64, i: usize) -> bool
    requires { i + 1 < length knots.now }
    ensures { result ≡ in_span knots.now lo hi i }
{
    let a = knots[i];
    let b = knots[i + 1];
    a < b && lo >= a && hi <= b
}

// The first nonempty span that contains the closed range, or the count.
pub fn first_span(degree: usize, count: usize, knots: &[f64], lo: f64, hi: f64) -> usize
    requires degree_le_count { degree ≤ count }
    requires count_in_bounds { count < length knots.now }
    ensures { result ≡ span_over degree count knots.now lo hi }
{
    for i in degree..count {
        if in_span(knots, lo, hi, i) {
            return i;
        }
    }
    count
}

// Span s where it contains the closed range, or the count.
pub fn taken_span(s: usize, count: usize, knots: &[f64], lo: f64, hi: f64) -> usize
    requires { s + 1 < length knots.now }
    ensures { result ≡ taken_span s count knots.now lo hi }
{
    if in_span(knots, lo, hi, s) { s } else { count }
}
