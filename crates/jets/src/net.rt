// The homogeneous net of a span, and de Boor's step on it.
ghost use Rattle.std.specs.Prelude.{◌≡◌, ◌&&◌};
ghost use Rattle.jets.specs.Jet.{jet_add, jet_mul};
ghost use Rattle.interval.specs.Ops.{add_of, mul_of, is_symmetric};
ghost use Rattle.jets.specs.Net.{slope_of, share_of, mix_of, neighbours, zero_control};

use crate::jet::Jet;
use interval::Interval;
use interval::spread::{product, sum_of_products};
use knots::refusal::Refusal;

// A point of the net: three weighted coordinates and the weight.
#[derive(Clone, Copy)]
pub struct Control {
    pub x: Jet,
    pub y: Jet,
    pub z: Jet,
    pub w: Jet,
}

pub fn zero_control() -> Control
    ensures { result ≡ zero_control }
{
    let zero = Jet::constant(Interval::point(0.0));
    Control {
        x: zero,
        y: zero,
        z: zero,
        w: zero,
    }
}

// The share of the right neighbour, (t - left) / (right - left).
fn share_at(t: Jet, left: f64, right: f64) -> Result<Jet, Refusal>
    ensures { result ≡ share_of t left right }
{
    let l = Interval::point(left);
    let d = Interval::point(right).sub(l);
    let q = interval::divide(Interval::point(1.0), d)?;
    Ok(t.sub(Jet::constant(l)).scale(q))
}

fn dot(a: Interval, b: Interval, c: Interval, d: Interval) -> Interval
    ensures { result ≡ add_of (mul_of a b) (mul_of c d) }
{
    a.mul(b).add(c.mul(d))
}

fn all_symmetric(a: Interval, b: Interval, c: Interval, d: Interval) -> bool
    ensures { result ≡ (is_symmetric a && (is_symmetric b && (is_symmetric c && is_symmetric d))) }
{
    a.is_symmetric() && b.is_symmetric() && c.is_symmetric() && d.is_symmetric()
}

// a d, where d is the derivative of a control: [0, 0] at first.
fn times(a: Interval, d: Interval) -> Interval
    ensures { result ≡ mul_of a d }
{
    if d.is_symmetric() {
        return product(a, d.hi());
    }
    a.mul(d)
}

// How b a + c d changes. A derivative along the other parameter is symmetric: it costs half as much.
fn slope(
    b: Interval,
    bd: Interval,
    a: Interval,
    ad: Interval,
    c: Interval,
    cd: Interval,
    d: Interval,
    dd: Interval,
) -> Interval
    ensures { result ≡ slope_of b bd a ad c cd d dd }
{
    if all_symmetric(bd, ad, cd, dd) {
        return sum_of_products(a, bd.hi(), b, ad.hi(), d, cd.hi(), c, dd.hi());
    }
    let x = bd.mul(a).add(times(b, ad));
    let y = cd.mul(d).add(times(c, dd));
    x.add(y)
}

fn mix_jet(beta: Jet, a: Jet, alpha: Jet, b: Jet) -> Jet
    ensures { result ≡ jet_add (jet_mul beta a) (jet_mul alpha b) }
{
    let u = beta.v;
    let v = alpha.v;
    Jet {
        v: dot(u, a.v, v, b.v),
        du: slope(u, beta.du, a.v, a.du, v, alpha.du, b.v, b.du),
        dv: slope(u, beta.dv, a.v, a.dv, v, alpha.dv, b.v, b.dv),
    }
}

// 1 - alpha is worked out once for the four.
fn mix(alpha: Jet, a: Control, b: Control) -> Control
    ensures { result ≡ mix_of alpha a b }
{
    let beta = Jet::constant(Interval::point(1.0)).sub(alpha);
    Control {
        x: mix_jet(beta, a.x, alpha, b.x),
        y: mix_jet(beta, a.y, alpha, b.y),
        z: mix_jet(beta, a.z, alpha, b.z),
        w: mix_jet(beta, a.w, alpha, b.w),
    }
}

// Two neighbours under the share between two knots.
pub fn step(t: Jet, left: f64, right: f64, a: Control, b: Control) -> Result<Control, Refusal>
    ensures { result ≡ neighbours (share_of t left right) a b }
{
    let alpha = share_at(t, left, right)?;
    Ok(mix(alpha, a, b))
}
