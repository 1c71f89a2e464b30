// The refusals of a call, by its mode: those of the curve or surface, then 31, 12 and 43; and of a step on what was validated before, with its lengths alone in their place.
ghost use Rattle.std.specs.Prelude.{◌≡◌};
ghost use Rattle.knots.specs.Refusal.{checked};
ghost use Rattle.knots.specs.Whole.{on, across};
ghost use Rattle.evaluate.specs.Curve.{parameter_refusal, step_refusal, eval_refusal};
ghost use Rattle.evaluate.specs.Surface.{degrees_refusal, parameters_refusal, surface_step_refusal, surface_eval_refusal};

use knots::curve::{Curve, curve_refusal};
use knots::refusal::Refusal;
use knots::shape::{curve_shape, degree_refusal, surface_shape};
use knots::span::domain_refusal;
use knots::surface::{Surface, surface_refusal};

// Refusals 31, 12 and 43.
pub fn parameter_refusal(
    clamps: bool,
    degree: usize,
    count: usize,
    knots: &[f64],
    t: f64,
) -> Result<(), Refusal>
    ensures { result ≡ checked (parameter_refusal clamps degree count knots.now t) }
{
    degree_refusal(degree)?;
    domain_refusal(clamps, degree, count, knots, t)
}

// The refusal of a step on a curve that was validated before: the runs' lengths, 31, 12, 43.
pub fn step_refusal(clamps: bool, curve: Curve, t: f64) -> Result<(), Refusal>
    ensures { result ≡ checked (on curve.entry (step_refusal clamps) t) }
{
    curve_shape(curve)?;
    let count = curve.points.len() / 3;
    parameter_refusal(clamps, curve.degree, count, curve.knots, t)
}

// The refusal of an evaluation of a curve: the curve's, 31, 12, 43.
pub fn eval_refusal(clamps: bool, curve: Curve, t: f64) -> Result<(), Refusal>
    ensures { result ≡ checked (on curve.entry (eval_refusal clamps) t) }
{
    curve_refusal(curve)?;
    let count = curve.points.len() / 3;
    parameter_refusal(clamps, curve.degree, count, curve.knots, t)
}

// Refusal 31 of either direction.
pub fn degrees_refusal(u_degree: usize, v_degree: usize) -> Result<(), Refusal>
    ensures { result ≡ checked (degrees_refusal u_degree v_degree) }
{
    degree_refusal(u_degree)?;
    degree_refusal(v_degree)
}

// Refusals 31 of either direction, then 12 and 43 of u, then of v.
pub fn parameters_refusal(clamps: bool, surface: Surface, u: f64, v: f64) -> Result<(), Refusal>
    ensures { result ≡ checked (across surface.entry (λ p q us vs m n ps g ws. parameters_refusal clamps p q us vs m n u v)) }
{
    let p = surface.u_degree;
    let q = surface.v_degree;
    degrees_refusal(p, q)?;
    domain_refusal(clamps, p, surface.u_count, surface.u_knots, u)?;
    domain_refusal(clamps, q, surface.v_count, surface.v_knots, v)
}

// The refusal of a step on a surface that was validated before: the runs' lengths, 31, 12, 43.
pub fn surface_step_refusal(clamps: bool, surface: Surface, u: f64, v: f64) -> Result<(), Refusal>
    ensures { result ≡ checked (across surface.entry (surface_step_refusal clamps) u v) }
{
    surface_shape(surface)?;
    parameters_refusal(clamps, surface, u, v)
}

// The refusal of an evaluation of a surface: the surface's, 31, 12, 43.
pub fn surface_eval_refusal(clamps: bool, surface: Surface, u: f64, v: f64) -> Result<(), Refusal>
    ensures { result ≡ checked (across surface.entry (surface_eval_refusal clamps) u v) }
{
    surface_refusal(surface)?;
    parameters_refusal(clamps, surface, u, v)
}
