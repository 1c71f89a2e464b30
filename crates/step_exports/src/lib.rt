// Steps of the calls as C functions, for the comparison alone: they take tables that were validated before, and are no part of what the library promises. Each is total.
#![tactic(auto)]

ghost use Rattle.std.specs.Prelude.{◌≡◌, length};
ghost use Rattle.knots.specs.Span.{refusing, SpanFound};
ghost use Rattle.basis.specs.Ders.{basis_table};
ghost use Rattle.evaluate.specs.Curve.{eval_at_of};
ghost use Rattle.exports.specs.Answer.{Leaves};
ghost use Rattle.exports.specs.Points.{curve_answer};

use basis::ders::basis_derivatives;
use evaluate::curve::eval_at;
use exports::points::put_curve;
use knots::curve::Curve;
use knots::span::span_of;

// The search alone: the span of a parameter of the domain.
#[unsafe(no_mangle)]
pub extern "C" fn tasulogi_step_span_of(degree: usize, count: usize, u: f64, knots: &[f64]) -> usize
    ensures { SpanFound degree count knots.now u result }
{
    span_of(degree, count, u, knots)
}

// The basis functions of a span and their derivatives up to order n, in three rows of 65 numbers.
#[unsafe(no_mangle)]
pub extern "C" fn tasulogi_step_basis_derivatives(
    span: usize,
    u: f64,
    degree: usize,
    n: usize,
    knots: &[f64],
    out: &mut [f64],
)
    ensures { out.new ≡ basis_table (length out.old) degree n knots.now span u }
{
    basis_derivatives(span, u, degree, n, knots, out);
}

// The point and the first derivative of a curve, by lengths, degree, parameter and the two ends of the domain alone.
#[unsafe(no_mangle)]
pub extern "C" fn tasulogi_step_eval_at(
    degree: usize,
    knots: &[f64],
    points: &[f64],
    rational: bool,
    weights: &[f64],
    t: f64,
    out: &mut [f64],
) -> u64
    ensures { Leaves (curve_answer (eval_at_of refusing degree knots.now points.now rational weights.now t)) out.old out.new result }
{
    put_curve(
        out,
        eval_at(
            Curve {
                degree,
                knots,
                points,
                rational,
                weights,
            },
            t,
        ),
    )
}
