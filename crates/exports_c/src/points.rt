// Points with their derivatives, of curves and surfaces: three numbers for each, the point first.
ghost use Rattle.knots.specs.Span.{refusing, clamping};
ghost use Rattle.evaluate.specs.Curve.{eval_of};
ghost use Rattle.evaluate.specs.Curve2.{eval2_of};
ghost use Rattle.evaluate.specs.Surface.{eval_surface_of};
ghost use Rattle.exports.specs.Answer.{Leaves};
ghost use Rattle.exports.specs.Points.{curve_answer, curve2_answer, surface_answer};

// The point and the first derivative of a curve.
#[unsafe(no_mangle)]
pub extern "C" fn tasulogi_eval(
    degree: usize,
    knots: &[f64],
    points: &[f64],
    rational: bool,
    weights: &[f64],
    t: f64,
    out: &mut [f64],
) -> u64
    ensures { Leaves (curve_answer (eval_of refusing degree knots.now points.now rational weights.now t)) out.old out.new result }
{
    exports::points::tasulogi_eval(degree, knots, points, rational, weights, t, out)
}

// The same, where a finite parameter outside the domain becomes the nearer end.
#[unsafe(no_mangle)]
pub extern "C" fn tasulogi_eval_clamped(
    degree: usize,
    knots: &[f64],
    points: &[f64],
    rational: bool,
    weights: &[f64],
    t: f64,
    out: &mut [f64],
) -> u64
    ensures { Leaves (curve_answer (eval_of clamping degree knots.now points.now rational weights.now t)) out.old out.new result }
{
    exports::points::tasulogi_eval_clamped(degree, knots, points, rational, weights, t, out)
}

// The point and two derivatives of a curve.
#[unsafe(no_mangle)]
pub extern "C" fn tasulogi_eval2(
    degree: usize,
    knots: &[f64],
    points: &[f64],
    rational: bool,
    weights: &[f64],
    t: f64,
    out: &mut [f64],
) -> u64
    ensures { Leaves (curve2_answer (eval2_of refusing degree knots.now points.now rational weights.now t)) out.old out.new result }
{
    exports::points::tasulogi_eval2(degree, knots, points, rational, weights, t, out)
}

// The same, where a finite parameter outside the domain becomes the nearer end.
#[unsafe(no_mangle)]
pub extern "C" fn tasulogi_eval2_clamped(
    degree: usize,
    knots: &[f64],
    points: &[f64],
    rational: bool,
    weights: &[f64],
    t: f64,
    out: &mut [f64],
) -> u64
    ensures { Leaves (curve2_answer (eval2_of clamping degree knots.now points.now rational weights.now t)) out.old out.new result }
{
    exports::points::tasulogi_eval2_clamped(degree, knots, points, rational, weights, t, out)
}

// The point of a surface and its derivatives along u and v.
#[unsafe(no_mangle)]
pub extern "C" fn tasulogi_eval_surface(
    p: usize,
    q: usize,
    uk: &[f64],
    vk: &[f64],
    un: usize,
    vn: usize,
    points: &[f64],
    rational: bool,
    weights: &[f64],
    u: f64,
    v: f64,
    out: &mut [f64],
) -> u64
    ensures { Leaves (surface_answer (eval_surface_of refusing p q uk.now vk.now un vn points.now rational weights.now u v)) out.old out.new result }
{
    exports::points::tasulogi_eval_surface(
        p, q, uk, vk, un, vn, points, rational, weights, u, v, out,
    )
}

// The same, where finite parameters outside the domain become the nearer ends.
#[unsafe(no_mangle)]
pub extern "C" fn tasulogi_eval_surface_clamped(
    p: usize,
    q: usize,
    uk: &[f64],
    vk: &[f64],
    un: usize,
    vn: usize,
    points: &[f64],
    rational: bool,
    weights: &[f64],
    u: f64,
    v: f64,
    out: &mut [f64],
) -> u64
    ensures { Leaves (surface_answer (eval_surface_of clamping p q uk.now vk.now un vn points.now rational weights.now u v)) out.old out.new result }
{
    exports::points::tasulogi_eval_surface_clamped(
        p, q, uk, vk, un, vn, points, rational, weights, u, v, out,
    )
}
