// Tables of a list, read in once for all calls. A run has room for 512 numbers.
use crate::{boxes, points, spans};
use knots::curve::Curve;
use knots::surface::Surface;
use replaying::runs::{flag, run, size};

fn knots_call(call: u32, degree: usize, count: usize, knots: &[f64]) -> bool {
    match call {
        21..=22 => spans::found(call == 22, degree, count, knots),
        23 => spans::next(degree, count, knots),
        _ => spans::clamped(degree, count, knots),
    }
}

// Reads a degree, a count and knots, then what a call takes and answers.
pub fn on_knots(call: u32) -> bool {
    let mut room = [0.0; 512];
    let degree = size();
    let count = size();
    let knots = run(&mut room);
    knots_call(call, degree, count, knots)
}

fn curve_call(call: u32, curve: Curve) -> bool {
    match call {
        19 => spans::curve(curve),
        26..=27 => points::eval_agrees(call == 27, curve),
        28..=29 => points::eval2_agrees(call == 29, curve),
        32 => points::reversal(curve),
        _ => boxes::curve(curve),
    }
}

// Reads a curve, then what a call takes and answers.
pub fn on_curve(call: u32) -> bool {
    let mut knot_room = [0.0; 512];
    let mut point_room = [0.0; 512];
    let mut weight_room = [0.0; 512];
    let degree = size();
    let knots = run(&mut knot_room);
    let points = run(&mut point_room);
    let rational = flag();
    let weights = run(&mut weight_room);
    curve_call(
        call,
        Curve {
            degree,
            knots,
            points,
            rational,
            weights,
        },
    )
}

fn surface_call(call: u32, surface: Surface) -> bool {
    match call {
        20 => spans::surface(surface),
        30..=31 => points::surface(call == 31, surface),
        33 => points::along(surface),
        _ => boxes::surface(surface),
    }
}

// Reads a surface, then what a call takes and answers.
pub fn on_surface(call: u32) -> bool {
    let mut u_room = [0.0; 512];
    let mut v_room = [0.0; 512];
    let mut point_room = [0.0; 512];
    let mut weight_room = [0.0; 512];
    let u_degree = size();
    let v_degree = size();
    let u_knots = run(&mut u_room);
    let v_knots = run(&mut v_room);
    let u_count = size();
    let v_count = size();
    let points = run(&mut point_room);
    let rational = flag();
    let weights = run(&mut weight_room);
    surface_call(
        call,
        Surface {
            u_degree,
            v_degree,
            u_knots,
            v_knots,
            u_count,
            v_count,
            points,
            rational,
            weights,
        },
    )
}
