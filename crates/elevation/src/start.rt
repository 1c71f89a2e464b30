// The refusals of an elevation before anything is formed.
ghost use Rattle.std.specs.Prelude.{◌≡◌, not, ◌&&◌, ◌+◌, ◌-◌, ◌*◌, ◌<◌, ◌≤◌, length, eqb, ltb};
ghost use Rattle.knots.specs.Refusal.{checked};
ghost use Rattle.knots.specs.Whole.{on};
ghost use Rattle.elevation.specs.Whole.{elevated_count, raise_start, elevate_start};

use crate::walk::{break_count, count_breaks};
use edits::start::{edit_start, out_room, scratch_room};
use knots::curve::Curve;
use knots::refusal::{Reason, Refusal, refuse};

// The points of a raised curve with so many breaks, of which so many are full.
fn raised_count(e: usize, breaks: usize, full: usize) -> usize
    requires { (e ≤ 64) × (breaks ≤ 1048576) × (full ≤ breaks) }
    ensures { result ≡ (e + 1) * (breaks + 1) - breaks + full }
{
    (e + 1) * (breaks + 1) - breaks + full
}

// A higher degree that is above 64.
fn is_high(p: usize, e: usize) -> bool
    ensures { result ≡ (not (eqb e p) && ltb 64 e) }
{
    e != p && e > 64
}

// The points of the answer: of the same degree as many as before.
pub fn elevated_count(p: usize, e: usize, n: usize, knots: &[f64]) -> usize
    requires p_lt_n { (p < n) × (n ≤ length knots.now) × (n ≤ 1048576) }
    requires e_bound { (e ≡ p → ⊥) → e ≤ 64 }
    ensures { result ≡ elevated_count p e n knots.now }
{
    if e == p {
        return n;
    }
    let met = count_breaks(p, n, knots);
    raised_count(e, met.breaks, met.full)
}

// 16, 18, 30 for the lent runs.
fn raise_start(
    p: usize,
    e: usize,
    n: usize,
    knots: &[f64],
    rational: bool,
    a: usize,
    b: usize,
    c: usize,
    d: usize,
) -> Result<(), Refusal>
    requires { (p < n) × (n ≤ length knots.now) × (n ≤ 1048576) }
    ensures { result ≡ checked (raise_start p e n knots.now rational a b c d) }
{
    if e < p {
        return Err(refuse(Reason::DegreeLowered));
    }
    if is_high(p, e) {
        return Err(refuse(Reason::ElevationHigh));
    }
    let count = elevated_count(p, e, n, knots);
    let breaks = break_count(p, n, knots);
    let extracted = (p + 1) * (breaks + 1);
    out_room(e, count, rational, a, b, c)?;
    scratch_room(p, extracted, d)
}

// The curve's refusal, 17, then 16, 18, 30 for the lent runs.
pub fn elevate_start(
    curve: Curve,
    raised: usize,
    a: usize,
    b: usize,
    c: usize,
    d: usize,
) -> Result<(), Refusal>
    ensures { result ≡ checked (on curve.entry elevate_start raised a b c d) }
{
    edit_start(curve)?;
    raise_start(
        curve.degree,
        raised,
        curve.points.len() / 3,
        curve.knots,
        curve.rational,
        a,
        b,
        c,
        d,
    )
}
