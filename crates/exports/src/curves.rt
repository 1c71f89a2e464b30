// Curves made of others: reversed, and at a fixed parameter of a surface. The runs hold the made curve, or +0.0.
ghost use Rattle.std.specs.Prelude.{◌≡◌, length};
ghost use Rattle.knots.specs.Refusal.{checked};
ghost use Rattle.made.specs.Reverse.{reverse_refusal, ReverseMeets};
ghost use Rattle.made.specs.IsoCurve.{iso_refusal, IsoMeets};
ghost use Rattle.exports.specs.Tables.{packed_of};

use crate::tables::packed_check;
use knots::curve::Curve;
use knots::surface::Surface;
use made::iso_curve::iso_curve;
use made::reverse::reversed;

// A curve run backwards over the same domain.
pub fn tasulogi_reversed(
    degree: usize,
    knots: &[f64],
    points: &[f64],
    rational: bool,
    weights: &[f64],
    out_knots: &mut [f64],
    out_points: &mut [f64],
    out_weights: &mut [f64],
) -> u64
    ensures value { result ≡ packed_of (reverse_refusal degree knots.now points.now rational weights.now (length out_knots.old) (length out_points.old) (length out_weights.old)) }
    ensures reverse_meets { ReverseMeets degree knots.now points.now rational weights.now (length out_knots.old) (length out_points.old) (length out_weights.old) out_knots.new out_points.new out_weights.new (checked (reverse_refusal degree knots.now points.now rational weights.now (length out_knots.old) (length out_points.old) (length out_weights.old))) }
{
    packed_check(reversed(
        Curve {
            degree,
            knots,
            points,
            rational,
            weights,
        },
        out_knots,
        out_points,
        out_weights,
    ))
}

// The curve of a surface at a fixed u, where constant_u, or a fixed v. Its knots are the surface's of the other direction.
pub fn tasulogi_iso_curve(
    p: usize,
    q: usize,
    uk: &[f64],
    vk: &[f64],
    un: usize,
    vn: usize,
    points: &[f64],
    rational: bool,
    weights: &[f64],
    constant_u: bool,
    t: f64,
    op: &mut [f64],
    ow: &mut [f64],
) -> u64
    ensures value { result ≡ packed_of (iso_refusal p q uk.now vk.now un vn points.now rational weights.now constant_u t (length op.old) (length ow.old)) }
    ensures iso_meets { IsoMeets p q uk.now vk.now un vn points.now rational weights.now constant_u t (length op.old) (length ow.old) op.new ow.new (checked (iso_refusal p q uk.now vk.now un vn points.now rational weights.now constant_u t (length op.old) (length ow.old))) }
{
    packed_check(iso_curve(
        Surface {
            u_degree: p,
            v_degree: q,
            u_knots: uk,
            v_knots: vk,
            u_count: un,
            v_count: vn,
            points,
            rational,
            weights,
        },
        constant_u,
        t,
        op,
        ow,
    ))
}
