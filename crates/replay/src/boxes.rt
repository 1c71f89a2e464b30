// Bounds: what is read behind a table, and what the Rust answers.
use bounds::answer::{NurbsBounds, Triple};
use bounds::curve::bound_curve;
use bounds::surface::bound_surface;
use knots::curve::Curve;
use knots::refusal::Refusal;
use knots::surface::Surface;
use replaying::answers::{accepted, ends, refused};
use replaying::words::double;

fn triple(t: Triple) -> bool {
    let x = ends(t.x, false);
    let y = ends(t.y, false);
    let z = ends(t.z, false);
    x && y && z
}

fn boxed(b: NurbsBounds) -> bool {
    let point = triple(b.point);
    let du = triple(b.du);
    let dv = triple(b.dv);
    point && du && dv
}

// Reads the 18 ends of a box, or a refusal.
fn judged(a: Result<NurbsBounds, Refusal>) -> bool {
    match a {
        Ok(b) => accepted() && boxed(b),
        Err(r) => refused(r.number, r.direction, r.place),
    }
}

pub fn curve(curve: Curve) -> bool {
    let lo = double();
    let hi = double();
    judged(bound_curve(curve, lo, hi))
}

pub fn surface(surface: Surface) -> bool {
    let u_lo = double();
    let u_hi = double();
    let v_lo = double();
    let v_hi = double();
    judged(bound_surface(surface, u_lo, u_hi, v_lo, v_hi))
}
