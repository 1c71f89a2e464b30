// The nonempty spans of a curve, one after the other.
ghost use Rattle.std.specs.Prelude.{◌≡◌};
ghost use Rattle.knots.specs.Walk.{first_from, next_span};

// The first nonempty span from a place on, before the place count.
fn next_from(count: usize, knots: &[f64], from: usize) -> Option<usize>
    ensures { result ≡ first_from count knots.now from }
{
    for span in from..count {
        if knots.len() <= span + 1 {
            return None;
        }
        if knots[span] < knots[span + 1] {
            return Some(span);
        }
    }
    None
}

// The first nonempty span from a place on, in degree..=count-1; for any input.
pub fn next_span(degree: usize, count: usize, knots: &[f64], from: usize) -> Option<usize>
    ensures { result ≡ next_span degree count knots.now from }
{
    if from < degree {
        return next_from(count, knots, degree);
    }
    next_from(count, knots, from)
}
