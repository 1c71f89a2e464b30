// Points, the reversed curve and the isocurve: what is read behind a table, and what the Rust answers.
use crate::spans::checked;
use evaluate::curve::{CurveDerivs, eval, eval_clamped};
use evaluate::curve2::{CurveDerivs2, eval2, eval2_clamped};
use evaluate::surface::{SurfaceDerivs, eval_surface, eval_surface_clamped};
use knots::curve::Curve;
use knots::refusal::Refusal;
use knots::surface::Surface;
use made::iso_curve::{iso_curve, iso_knots};
use made::reverse::reversed;
use replaying::answers::{accepted, refused, same};
use replaying::runs::{flag, size};
use replaying::words::{double, word};
use runs::vector::Vector;

// Reads three words: the vector has them.
fn vector(v: Vector) -> bool {
    let x = word();
    let y = word();
    let z = word();
    same(v.x, x, false) && same(v.y, y, false) && same(v.z, z, false)
}

fn two(a: Vector, b: Vector) -> bool {
    let x = vector(a);
    let y = vector(b);
    x && y
}

fn three(a: Vector, b: Vector, c: Vector) -> bool {
    let x = two(a, b);
    let y = vector(c);
    x && y
}

// Reads a run: it stands at the front, and +0.0 behind it.
fn held(out: &[f64]) -> bool {
    let n = size();
    let mut all = true;
    for (i, x) in out.iter().enumerate() {
        let want = if i < n { word() } else { 0 };
        if !same(*x, want, false) {
            all = false;
        }
    }
    all
}

// Reads what `eval` answers, by either mode.
fn curve_agrees(a: Result<CurveDerivs, Refusal>) -> bool {
    match a {
        Ok(d) => accepted() && two(d.point, d.d1),
        Err(r) => refused(r.number, r.direction, r.place),
    }
}

pub fn eval_agrees(clamping: bool, curve: Curve) -> bool {
    let t = double();
    if clamping {
        return curve_agrees(eval_clamped(curve, t));
    }
    curve_agrees(eval(curve, t))
}

// Reads what `eval2` answers, by either mode.
fn curve2_agrees(a: Result<CurveDerivs2, Refusal>) -> bool {
    match a {
        Ok(d) => accepted() && three(d.point, d.d1, d.d2),
        Err(r) => refused(r.number, r.direction, r.place),
    }
}

pub fn eval2_agrees(clamping: bool, curve: Curve) -> bool {
    let t = double();
    if clamping {
        return curve2_agrees(eval2_clamped(curve, t));
    }
    curve2_agrees(eval2(curve, t))
}

// Reads what `eval_surface` answers, by either mode.
fn surface_agrees(a: Result<SurfaceDerivs, Refusal>) -> bool {
    match a {
        Ok(d) => accepted() && three(d.point, d.du, d.dv),
        Err(r) => refused(r.number, r.direction, r.place),
    }
}

pub fn surface(clamping: bool, surface: Surface) -> bool {
    let u = double();
    let v = double();
    if clamping {
        return surface_agrees(eval_surface_clamped(surface, u, v));
    }
    surface_agrees(eval_surface(surface, u, v))
}

pub fn reversal(curve: Curve) -> bool {
    let mut out_knots = [1.0; 512];
    let mut out_points = [1.0; 512];
    let mut out_weights = [1.0; 512];
    let r = reversed(curve, &mut out_knots, &mut out_points, &mut out_weights);
    let number = checked(r);
    let a = held(&out_knots);
    let b = held(&out_points);
    let c = held(&out_weights);
    number && a && b && c
}

// The knots that are handed back are held against the Rust's whether the curve is refused or not.
pub fn along(surface: Surface) -> bool {
    let mut out_points = [1.0; 512];
    let mut out_weights = [1.0; 512];
    let constant_u = flag();
    let t = double();
    let r = iso_curve(surface, constant_u, t, &mut out_points, &mut out_weights);
    let number = checked(r);
    let a = held(&out_points);
    let b = held(&out_weights);
    let c = held(iso_knots(constant_u, surface.u_knots, surface.v_knots));
    number && a && b && c
}
