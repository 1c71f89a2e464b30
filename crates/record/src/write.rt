// The writer of the table record.
ghost use Rattle.std.specs.Prelude.{◌≡◌, cond, ◌+◌, ◌*◌, ◌≤◌, leb, length};
ghost use Rattle.std.proofs.lemmas.List.Edits.{sets};
ghost use Rattle.knots.specs.Whole.{on};
ghost use Rattle.record.specs.Format.{encode};
ghost use Rattle.record.specs.Writing.{table_from, weight_bytes, size_of, Kept, Writes, ReadsBack};

use crate::bytes::put_u16;
use crate::clear::clear_bytes;
use crate::field::{put_head, put_run};
use knots::curve::Curve;
use knots::refusal::{Reason, Refusal, refuse};

fn within(n: usize) -> Option<usize>
    ensures { result ≡ cond (leb n 65536) (Some n) None }
{
    if n > 65536 {
        return None;
    }
    Some(n)
}

// The bytes of a record of these counts, where the format holds it.
fn record_size(
    degree: usize,
    knots: usize,
    points: usize,
    rational: bool,
    weights: usize,
) -> Option<usize>
    ensures { result ≡ size_of degree knots points (weight_bytes rational weights) }
{
    if degree > 65535 {
        return None;
    }
    if knots > 8191 {
        return None;
    }
    if points > 8191 {
        return None;
    }
    let polynomial = 11 + 8 * knots + 8 * points;
    if rational {
        if weights > 8191 {
            return None;
        }
        return within(polynomial + (3 + 8 * weights));
    }
    within(polynomial)
}

// The fields one after another from the first byte on.
fn put_table(curve: Curve, out: &mut [u8])
    requires { 11 + 8 * length curve.knots.now + 8 * length curve.points.now + weight_bytes curve.rational (length curve.weights.now) ≤ length out.old }
    ensures { out.new ≡ sets out.old 0 (encode (on curve.entry table_from)) }
{
    put_head(out, 0, 1, 2);
    put_u16(out, 3, curve.degree as u64);
    put_run(out, 5, 2, curve.knots);
    let at = 8 + 8 * curve.knots.len();
    put_run(out, at, 3, curve.points);
    if curve.rational {
        let end = at + 3 + 8 * curve.points.len();
        put_run(out, end, 4, curve.weights);
    }
}

// The length of a run. That its numbers are doubles is known of a run by itself, and not of one inside a struct.
fn doubles_in(xs: &[f64]) -> usize
    ensures count { result ≡ length xs.now }
    ensures kept { Kept xs.now }
{
    xs.len()
}

// A table's record into lent bytes, with 0 after it, and its length. 30 where the format cannot hold the table (a degree above 65,535, a record of more than 65,536 bytes), and for an
// output smaller than the answer; then every byte is 0. Whether the numbers are a curve is not asked. Every NaN is written as the quiet one with no sign and no payload.
pub fn write_record(curve: Curve, out: &mut [u8]) -> Result<usize, Refusal>
    ensures writes { Writes (on curve.entry table_from) out.old out.new result }
    ensures reads_back { on curve.entry ReadsBack out.new result }
{
    clear_bytes(out);
    let knots = doubles_in(curve.knots);
    let points = doubles_in(curve.points);
    let weights = doubles_in(curve.weights);
    let Some(n) = record_size(curve.degree, knots, points, curve.rational, weights) else {
        return Err(refuse(Reason::LengthBad));
    };
    if out.len() < n {
        return Err(refuse(Reason::LengthBad));
    }
    put_table(curve, out);
    Ok(n)
}
