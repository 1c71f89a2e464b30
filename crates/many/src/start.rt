// The refusals of a call before any row is made.
ghost use Rattle.std.specs.Prelude.{◌≡◌, ◌≤◌};
ghost use Rattle.knots.specs.Refusal.{checked};
ghost use Rattle.many.specs.Points.{points_start};
ghost use Rattle.many.specs.Start.{table_refusal, rooms_refusal};
ghost use Rattle.knots.specs.Whole.{on};

use knots::curve::{Curve, curve_refusal};
use knots::limits::over_long;
use knots::refusal::{Reason, Refusal, refuse};
use knots::shape::{degree_refusal, room_refusal};

// The curve's own, then 31.
pub fn table_refusal(curve: Curve) -> Result<(), Refusal>
    ensures { result ≡ checked (on curve.entry table_refusal) }
{
    let Curve { degree, .. } = curve;
    curve_refusal(curve)?;
    degree_refusal(degree)
}

// 30 for two lent runs of a and b numbers that are to hold m and n.
pub fn rooms_refusal(a: usize, m: usize, b: usize, n: usize) -> Result<(), Refusal>
    ensures { result ≡ checked (rooms_refusal a m b n) }
{
    room_refusal(a, m)?;
    room_refusal(b, n)
}

// The refusal before anything is evaluated: 30 for too many parameters, the curve's, 31, 30 for lent runs of a and b numbers where a row has `width`.
pub fn points_start(
    curve: Curve,
    ts: &[f64],
    width: usize,
    a: usize,
    b: usize,
) -> Result<(), Refusal>
    requires { width ≤ 18 }
    ensures { result ≡ checked (on curve.entry points_start ts.now width a b) }
{
    if over_long(true, ts) {
        return Err(refuse(Reason::LengthBad));
    }
    table_refusal(curve)?;
    let n = ts.len();
    rooms_refusal(a, n, b, n * width)
}
