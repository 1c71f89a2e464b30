// A curve in a lent run, for other edits. Each call is total, and a refusal leaves +0.0 alone in what is lent.
ghost use Rattle.std.specs.Prelude.{◌≡◌, ◌+◌, ◌*◌, length, drop};
ghost use Rattle.knots.specs.Refusal.{checked};
ghost use Rattle.knots.specs.Clear.{zeros};
ghost use Rattle.knots.specs.Whole.{on};
ghost use Rattle.runs.specs.Lent.{left_in};
ghost use Rattle.edits.specs.Work.{knots_from, points_from, weights_from, work_room, lay_refusal, lay_outcome, refusal_of, work_in, take_refusal, front_refusal};

use crate::counts::given_count;
use crate::lay::{lay_into, store_curve};
use crate::start::out_room;
use knots::clear::clear;
use knots::curve::{Curve, formed_refusal};
use knots::refusal::{Reason, Refusal, refuse};
use knots::shape::room_refusal;

// Every lent run at once: what a refusal leaves.
pub fn clear_all(knots: &mut [f64], points: &mut [f64], weights: &mut [f64], rows: &mut [f64])
    ensures { (knots.new ≡ zeros (length knots.old)) × (points.new ≡ zeros (length points.old)) × (weights.new ≡ zeros (length weights.old)) × (rows.new ≡ zeros (length rows.old)) }
{
    clear(knots);
    clear(points);
    clear(weights);
    clear(rows);
}

// 30 for a run of l numbers that is to hold n points and m knots.
pub fn work_room(n: usize, m: usize, a: usize, l: usize) -> Result<(), Refusal>
    ensures { result ≡ checked (work_room n m a l) }
{
    if n > a / 4 {
        return Err(refuse(Reason::LengthBad));
    }
    if a > l {
        return Err(refuse(Reason::LengthBad));
    }
    if m > l - a {
        return Err(refuse(Reason::LengthBad));
    }
    Ok(())
}

// 30 for the weights, and for the run.
fn lay_refusal(curve: Curve, a: usize, l: usize) -> Result<(), Refusal>
    ensures { result ≡ checked (on curve.entry (λ p. lay_refusal) a l) }
{
    let n = curve.points.len() / 3;
    room_refusal(curve.weights.len(), given_count(curve.rational, n))?;
    work_room(n, curve.knots.len(), a, l)
}

// A curve goes into a run, its knots to place a. Beside it the run stays as it was.
pub fn lay_curve(curve: Curve, a: usize, work: &mut [f64]) -> Result<(), Refusal>
    ensures value { result ≡ checked (refusal_of (on curve.entry (λ p. lay_outcome) a (length work.old))) }
    ensures work_after { work.new ≡ work_in a curve.entry.rational work.old (on curve.entry (λ p. lay_outcome) a (length work.old)) }
{
    if let Err(r) = lay_refusal(curve, a, work.len()) {
        clear(work);
        return Err(r);
    }
    lay_into(curve, a, work);
    Ok(())
}

// The curve of m points from row f and knot f on goes to three outputs, +0.0 behind it.
pub fn take_curve(
    p: usize,
    m: usize,
    f: usize,
    rational: bool,
    a: usize,
    work: &[f64],
    knots: &mut [f64],
    points: &mut [f64],
    weights: &mut [f64],
) -> Result<(), Refusal>
    ensures value { result ≡ checked (take_refusal p m f rational a (length work.now) (length knots.old) (length points.old) (length weights.old)) }
    ensures knots_after { knots.new ≡ left_in (take_refusal p m f rational a (length work.now) (length knots.old) (length points.old) (length weights.old)) (length knots.old) (knots_from (a + f) p m work.now) }
    ensures points_after { points.new ≡ left_in (take_refusal p m f rational a (length work.now) (length knots.old) (length points.old) (length weights.old)) (length points.old) (points_from m (drop (f * 4) work.now)) }
    ensures weights_after { weights.new ≡ left_in (take_refusal p m f rational a (length work.now) (length knots.old) (length points.old) (length weights.old)) (length weights.old) (weights_from rational m (drop (f * 4) work.now)) }
{
    let early = take_refusal(
        p,
        m,
        f,
        rational,
        a,
        work.len(),
        knots.len(),
        points.len(),
        weights.len(),
    );
    if let Err(r) = early {
        clear(knots);
        clear(points);
        clear(weights);
        return Err(r);
    }
    store_curve(p, m, f, rational, a, work, knots, points, weights);
    Ok(())
}

// 30 for the run, and for the outputs.
fn take_refusal(
    p: usize,
    m: usize,
    f: usize,
    rational: bool,
    a: usize,
    l: usize,
    b: usize,
    c: usize,
    d: usize,
) -> Result<(), Refusal>
    ensures { result ≡ checked (take_refusal p m f rational a l b c d) }
{
    if f > a / 4 {
        return Err(refuse(Reason::LengthBad));
    }
    if m > a / 4 - f {
        return Err(refuse(Reason::LengthBad));
    }
    if a > l {
        return Err(refuse(Reason::LengthBad));
    }
    if f + m > l - a {
        return Err(refuse(Reason::LengthBad));
    }
    if p >= l - a - (f + m) {
        return Err(refuse(Reason::LengthBad));
    }
    out_room(p, m, rational, b, c, d)
}

// 30, and 1 to 10 of the curve of n points at the front of three runs.
pub fn front_refusal(
    p: usize,
    n: usize,
    rational: bool,
    knots: &[f64],
    points: &[f64],
    weights: &[f64],
) -> Result<(), Refusal>
    ensures { result ≡ checked (front_refusal p n rational knots.now points.now weights.now) }
{
    out_room(p, n, rational, knots.len(), points.len(), weights.len())?;
    let a = n + p + 1;
    let b = n * 3;
    let c = given_count(rational, n);
    formed_refusal(p, n, &knots[..a], &points[..b], rational, &weights[..c])
}
