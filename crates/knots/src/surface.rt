// Validation of a surface: refusals 30, 32, 11, 1 to 7 of u, 1 to 7 of v, 8 to 10, in this order.
ghost use Rattle.std.specs.Prelude.{◌≡◌};
ghost use Rattle.knots.specs.Refusal.{checked};
ghost use Rattle.knots.specs.Surface.{net_refusal, surface_refusal};
ghost use Rattle.knots.specs.Whole.{across};

use crate::curve::{any_long, control_refusal};
use crate::knots::knot_refusal;
use crate::limits::{is_product, over_long};
use crate::refusal::{Reason, Refusal, along, refuse};

// A surface by its runs: along u and along v its degree, knots and count of points; the coordinates of the points (x, y, z of each), those along v side by side; and, where it is rational, the weights. Nothing is asked of them. Weights count only where rational is true.
#[derive(Clone, Copy)]
pub struct Surface<'a> {
    pub u_degree: usize,
    pub v_degree: usize,
    pub u_knots: &'a [f64],
    pub v_knots: &'a [f64],
    pub u_count: usize,
    pub v_count: usize,
    pub points: &'a [f64],
    pub rational: bool,
    pub weights: &'a [f64],
}

// Refusals 30, 32, 11 of a surface's runs. Counts whose product overflows are 11.
fn net_refusal(surface: Surface) -> Result<(), Refusal>
    ensures { result ≡ checked (across surface.entry (λ p q. net_refusal)) }
{
    if over_long(true, surface.u_knots) {
        return Err(refuse(Reason::LengthBad));
    }
    if any_long(
        surface.v_knots,
        surface.points,
        surface.rational,
        surface.weights,
    ) {
        return Err(refuse(Reason::LengthBad));
    }
    if surface.points.len() % 3 != 0 {
        return Err(refuse(Reason::PointsUneven));
    }
    if !is_product(surface.points.len() / 3, surface.u_count, surface.v_count) {
        return Err(refuse(Reason::NetSize));
    }
    Ok(())
}

// The refusal of a surface.
pub fn surface_refusal(surface: Surface) -> Result<(), Refusal>
    ensures { result ≡ checked (across surface.entry surface_refusal) }
{
    net_refusal(surface)?;
    let u = knot_refusal(surface.u_degree, surface.u_count, surface.u_knots);
    along(0, u)?;
    let v = knot_refusal(surface.v_degree, surface.v_count, surface.v_knots);
    along(1, v)?;
    let count = surface.points.len() / 3;
    control_refusal(count, surface.points, surface.rational, surface.weights)
}
