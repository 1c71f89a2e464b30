// Edits of a curve. The output runs hold the curve that is formed, or +0.0; scratch is left +0.0. The number returned has the refusal in its low half, and in its high half the count of points or the refusal's place.
ghost use Rattle.std.specs.Prelude.{◌+◌, ◌<◌, ◌≡◌, length};
ghost use Rattle.knots.specs.Curve.{count_of};
ghost use Rattle.edits.specs.Whole.{answer_of};
ghost use Rattle.insertion.specs.Whole.{insert_outcome, InsertMeets};
ghost use Rattle.trimming.specs.Trim.{kept_of, trim_outcome, TrimMeets};
ghost use Rattle.elevation.specs.Whole.{elevated_count, elevate_outcome, ElevateMeets};
ghost use Rattle.exports.specs.Edits.{points_of, edit_number};

use crate::tables::packed;
use edits::answer::FormedCurve;
use elevation::elevate::elevate_degree;
use insertion::insert::insert_knots;
use knots::curve::Curve;
use knots::refusal::Refusal;
use trimming::trim::trim;

fn edit_number(a: Result<FormedCurve, Refusal>) -> u64
    requires { points_of a < 4294967296 }
    ensures { result ≡ edit_number a }
{
    match a {
        Ok(formed) => formed.count as u64 * 0x1_0000_0000,
        Err(r) => packed(r),
    }
}

// Knots inserted into a curve, one after the other.
pub fn tasulogi_insert_knots(
    degree: usize,
    knots: &[f64],
    points: &[f64],
    rational: bool,
    weights: &[f64],
    inserted: &[f64],
    out_knots: &mut [f64],
    out_points: &mut [f64],
    out_weights: &mut [f64],
    scratch: &mut [f64],
) -> u64
    ensures value { result ≡ edit_number (answer_of degree (count_of points.now + length inserted.now) (insert_outcome degree knots.now points.now rational weights.now inserted.now (length out_knots.old) (length out_points.old) (length out_weights.old) (length scratch.old))) }
    ensures insert_meets { InsertMeets degree knots.now points.now rational weights.now inserted.now (length out_knots.old) (length out_points.old) (length out_weights.old) (length scratch.old) out_knots.new out_points.new out_weights.new scratch.new (answer_of degree (count_of points.now + length inserted.now) (insert_outcome degree knots.now points.now rational weights.now inserted.now (length out_knots.old) (length out_points.old) (length out_weights.old) (length scratch.old))) }
{
    edit_number(insert_knots(
        Curve {
            degree,
            knots,
            points,
            rational,
            weights,
        },
        inserted,
        out_knots,
        out_points,
        out_weights,
        scratch,
    ))
}

// A curve cut to the part from lo to hi.
pub fn tasulogi_trim(
    degree: usize,
    knots: &[f64],
    points: &[f64],
    rational: bool,
    weights: &[f64],
    lo: f64,
    hi: f64,
    out_knots: &mut [f64],
    out_points: &mut [f64],
    out_weights: &mut [f64],
    scratch: &mut [f64],
) -> u64
    ensures value { result ≡ edit_number (answer_of degree (kept_of degree knots.now lo hi) (trim_outcome degree knots.now points.now rational weights.now lo hi (length out_knots.old) (length out_points.old) (length out_weights.old) (length scratch.old))) }
    ensures trim_meets { TrimMeets degree knots.now points.now rational weights.now lo hi (length out_knots.old) (length out_points.old) (length out_weights.old) (length scratch.old) out_knots.new out_points.new out_weights.new scratch.new (answer_of degree (kept_of degree knots.now lo hi) (trim_outcome degree knots.now points.now rational weights.now lo hi (length out_knots.old) (length out_points.old) (length out_weights.old) (length scratch.old))) }
{
    edit_number(trim(
        Curve {
            degree,
            knots,
            points,
            rational,
            weights,
        },
        lo,
        hi,
        out_knots,
        out_points,
        out_weights,
        scratch,
    ))
}

// A curve of a higher degree, or a copy.
pub fn tasulogi_elevate_degree(
    degree: usize,
    knots: &[f64],
    points: &[f64],
    rational: bool,
    weights: &[f64],
    raised: usize,
    out_knots: &mut [f64],
    out_points: &mut [f64],
    out_weights: &mut [f64],
    scratch: &mut [f64],
) -> u64
    ensures value { result ≡ edit_number (answer_of raised (elevated_count degree raised (count_of points.now) knots.now) (elevate_outcome degree knots.now points.now rational weights.now raised (length out_knots.old) (length out_points.old) (length out_weights.old) (length scratch.old))) }
    ensures elevate_meets { ElevateMeets degree knots.now points.now rational weights.now raised (length out_knots.old) (length out_points.old) (length out_weights.old) (length scratch.old) out_knots.new out_points.new out_weights.new scratch.new (answer_of raised (elevated_count degree raised (count_of points.now) knots.now) (elevate_outcome degree knots.now points.now rational weights.now raised (length out_knots.old) (length out_points.old) (length out_weights.old) (length scratch.old))) }
{
    edit_number(elevate_degree(
        Curve {
            degree,
            knots,
            points,
            rational,
            weights,
        },
        raised,
        out_knots,
        out_points,
        out_weights,
        scratch,
    ))
}
