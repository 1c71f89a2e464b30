// The refusals of an edit before anything is formed.
ghost use Rattle.std.specs.Prelude.{◌≡◌, ◌+◌, ◌<◌, length};
ghost use Rattle.knots.specs.Refusal.{checked};
ghost use Rattle.knots.specs.Whole.{on};
ghost use Rattle.edits.specs.Start.{clamped_ends, edit_start, out_room, scratch_room};

use crate::counts::{all_equal, given_count};
use knots::curve::{Curve, curve_refusal};
use knots::refusal::{Reason, Refusal, refuse};
use knots::shape::room_refusal;

// The degree + 1 first knots are one number, and so are the degree + 1 last.
fn clamped_ends(p: usize, n: usize, knots: &[f64]) -> bool
    requires { (p < n) × (n < length knots.now) }
    ensures { result ≡ clamped_ends p n knots.now }
{
    let m = p + 1;
    all_equal(&knots[..m], knots[p]) && all_equal(&knots[n..], knots[n])
}

// The curve's refusal, 17.
pub fn edit_start(curve: Curve) -> Result<(), Refusal>
    ensures { result ≡ checked (on curve.entry edit_start) }
{
    curve_refusal(curve)?;
    if !clamped_ends(curve.degree, curve.points.len() / 3, curve.knots) {
        return Err(refuse(Reason::EndsUnclamped));
    }
    Ok(())
}

// 30 for outputs of a, b and c numbers: knots, points and weights of n points. No sum is formed that could be too large.
pub fn out_room(
    p: usize,
    n: usize,
    rational: bool,
    a: usize,
    b: usize,
    c: usize,
) -> Result<(), Refusal>
    ensures { result ≡ checked (out_room p n rational a b c) }
{
    if n > a {
        return Err(refuse(Reason::LengthBad));
    }
    if p >= a - n {
        return Err(refuse(Reason::LengthBad));
    }
    if n > b / 3 {
        return Err(refuse(Reason::LengthBad));
    }
    room_refusal(c, given_count(rational, n))
}

// 30 for scratch of d numbers, for a curve of degree p that has n points where it has most.
pub fn scratch_room(p: usize, n: usize, d: usize) -> Result<(), Refusal>
    ensures { result ≡ checked (scratch_room p n d) }
{
    if n > d / 10 {
        return Err(refuse(Reason::LengthBad));
    }
    if p >= (d - 10 * n) / 2 {
        return Err(refuse(Reason::LengthBad));
    }
    Ok(())
}
