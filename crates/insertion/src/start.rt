// The refusals of an insertion before anything is formed.
ghost use Rattle.std.specs.Prelude.{◌≡◌};
ghost use Rattle.knots.specs.Refusal.{checked};
ghost use Rattle.knots.specs.Whole.{on};
ghost use Rattle.insertion.specs.Whole.{insert_start};

use edits::start::{edit_start, out_room, scratch_room};
use knots::curve::Curve;
use knots::limits::over_long;
use knots::refusal::{Reason, Refusal, refuse};

// 30 for the list, the curve's refusal, 17, 30 for the lent runs.
pub fn insert_start(
    curve: Curve,
    inserted: &[f64],
    a: usize,
    b: usize,
    c: usize,
    d: usize,
) -> Result<(), Refusal>
    ensures { result ≡ checked (on curve.entry insert_start inserted.now a b c d) }
{
    if over_long(true, inserted) {
        return Err(refuse(Reason::LengthBad));
    }
    edit_start(curve)?;
    let n = curve.points.len() / 3 + inserted.len();
    out_room(curve.degree, n, curve.rational, a, b, c)?;
    scratch_room(curve.degree, n, d)
}
