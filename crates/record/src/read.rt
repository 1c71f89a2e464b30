// The reader of the table record.
ghost use Rattle.std.specs.Prelude.{◌≡◌, ◌+◌, ◌*◌, ◌<◌};
ghost use Rattle.std.specs.Prelude.{None};
ghost use Rattle.record.specs.Reading.{end_of, layout_of, rational, room_for, ReadsLayout, ReadsNumbers};

use crate::field::{degree_at, fill, run_at};
use knots::clear::clear;
use knots::refusal::{Reason, Refusal, refuse};

// How many numbers each run of a record has. The knots start at byte 8, the points 3 bytes after the knots, the weights 3 bytes after the points.
// An absent weights field is not weighted; a zero-length one is, with no weight in it.
#[derive(Clone, Copy, Debug, PartialEq, Eq)]
pub struct Layout {
    pub degree: usize,
    pub knots: usize,
    pub points: usize,
    pub weighted: bool,
    pub weights: usize,
}

// The answer for bytes that are no record.
fn malformed() -> Result<Layout, Refusal>
    ensures { result ≡ layout_of None }
{
    Err(refuse(Reason::RecordMalformed))
}

// After the points: the end, or weights up to the end.
fn end_at(s: &[u8], degree: usize, knots: usize, points: usize) -> Result<Layout, Refusal>
    requires knots_bound { knots < 8192 }
    requires points_bound { points < 8192 }
    ensures { result ≡ layout_of (end_of s.now degree knots points) }
{
    let at = 11 + 8 * knots + 8 * points;
    if s.len() <= at {
        return Ok(Layout {
            degree,
            knots,
            points,
            weighted: false,
            weights: 0,
        });
    }
    let Some(weights) = run_at(s, at, 4) else {
        return malformed();
    };
    if s.len() - at != 3 + 8 * weights {
        return malformed();
    }
    Ok(Layout {
        degree,
        knots,
        points,
        weighted: true,
        weights,
    })
}

// The layout of a record, or 33 for bytes that are none.
pub fn read_record(s: &[u8]) -> Result<Layout, Refusal>
    ensures { ReadsLayout s.now result }
{
    if s.len() > 65536 {
        return malformed();
    }
    let Some(degree) = degree_at(s) else {
        return malformed();
    };
    let Some(knots) = run_at(s, 5, 2) else {
        return malformed();
    };
    let Some(points) = run_at(s, 8 + 8 * knots, 3) else {
        return malformed();
    };
    end_at(s, degree, knots, points)
}

// Whether the curve of a record is rational: an absent weights field alone means polynomial.
pub fn is_rational(l: Layout) -> bool
    ensures { result ≡ rational l }
{
    l.weighted
}

// Whether runs of these lengths have room for the numbers of a record.
fn has_room(l: Layout, knots: usize, points: usize, weights: usize) -> bool
    ensures { result ≡ room_for l knots points weights }
{
    l.knots <= knots && l.points <= points && l.weights <= weights
}

// The numbers of a record into three lent runs, or 33, or 30 for a run with too little room. What a run does not need, and all of it after a refusal, is +0.0.
pub fn read_numbers(
    s: &[u8],
    knots: &mut [f64],
    points: &mut [f64],
    weights: &mut [f64],
) -> Result<Layout, Refusal>
    ensures { ReadsNumbers s.now knots.old points.old weights.old knots.new points.new weights.new result }
{
    clear(knots);
    clear(points);
    clear(weights);
    let l = read_record(s)?;
    if !has_room(l, knots.len(), points.len(), weights.len()) {
        return Err(refuse(Reason::LengthBad));
    }
    let k = l.knots;
    let n = l.points;
    let w = l.weights;
    let at = 11 + 8 * k + 8 * n;
    fill(s, 8, k, knots);
    fill(s, 11 + 8 * k, n, points);
    fill(s, at + 3, w, weights);
    Ok(l)
}
