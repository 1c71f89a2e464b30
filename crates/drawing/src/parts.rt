// A span in equal parts: bounds over a whole span are wide.
ghost use Rattle.std.specs.Prelude.{◌≡◌, ◌+◌, ◌≤◌, ◌<◌, pos};
ghost use Rattle.std.specs.Float.{binary64};
ghost use Rattle.std.specs.Float.Ieee.{of_int};
ghost use Rattle.bounds.specs.Curve.{bound_at};
ghost use Rattle.drawing.specs.Drawing.{mark_of, part_of};

use bounds::answer::NurbsBounds;
use bounds::curve::bound_span;
use knots::curve::Curve;
use knots::refusal::Refusal;

// A count as a double.
fn as_double(j: usize) -> f64
    requires { j ≤ 1024 }
    ensures { result ≡ of_int binary64 (pos j) }
{
    j as f64
}

// j of k equal steps. Both ends are the given ones, so that the parts are all of the span.
fn mark(a: f64, b: f64, j: usize, k: usize) -> f64
    requires j_bound { j ≤ 1024 }
    requires k_bound { k ≤ 1024 }
    ensures { result ≡ mark_of a b j k }
{
    if j == 0 {
        return a;
    }
    if j == k {
        return b;
    }
    a + (b - a) * (as_double(j) / as_double(k))
}

// A part of that number, or the last.
pub fn part_in(parts: usize, part: usize) -> usize
    requires { 0 < parts }
    ensures value { result ≡ part_of parts part }
    ensures upper_bound { result < parts }
{
    if part < parts {
        return part;
    }
    parts - 1
}

// The bounds on a part of the span between two knots.
pub fn bound_part(
    curve: Curve,
    span: usize,
    lower: f64,
    upper: f64,
    part: usize,
    parts: usize,
) -> Result<NurbsBounds, Refusal>
    requires part_lt_parts { part < parts }
    requires parts_bound { parts ≤ 1024 }
    ensures { result ≡ bound_at curve.entry.degree span curve.entry.knots.now curve.entry.points.now curve.entry.rational curve.entry.weights.now (mark_of lower upper part parts) (mark_of lower upper (part + 1) parts) }
{
    let lo = mark(lower, upper, part, parts);
    let hi = mark(lower, upper, part + 1, parts);
    bound_span(curve, span, lo, hi)
}
