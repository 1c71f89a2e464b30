// Validation of curves and surfaces, and the class of a refusal.
ghost use Rattle.std.specs.Prelude.{◌<◌, ◌≡◌};
ghost use Rattle.knots.specs.Refusal.{class_of, accepted, checked};
ghost use Rattle.knots.specs.declared.refusal.Refusal.{Refusal};
ghost use Rattle.knots.specs.Curve.{curve_refusal};
ghost use Rattle.knots.specs.Surface.{surface_refusal};
ghost use Rattle.exports.specs.Tables.{directed_of, half_of, packed_of, high_of};

use knots::curve::{Curve, curve_refusal};
use knots::refusal::{Refusal, class_of};
use knots::surface::{Surface, surface_refusal};

// The number alone, but for 1 to 7 of a surface: 100 more along u, 200 more along v.
fn directed(r: Refusal) -> u32
    ensures { result ≡ directed_of r }
{
    let number = r.number;
    if number > 7 {
        return number;
    }
    if r.direction == 0 {
        return number + 100;
    }
    if r.direction == 1 {
        return number + 200;
    }
    number
}

// A place in half of a number: one that has no room there becomes 2^32 - 1.
fn half(place: usize) -> u64
    ensures value { result ≡ half_of place }
    ensures upper_bound { result < 4294967296 }
{
    if place > 0xffff_ffff {
        return 0xffff_ffff;
    }
    place as u64
}

// The place in the high half, where a reader of 32 bits does not look.
pub fn packed(r: Refusal) -> u64
    ensures { result ≡ packed_of r }
{
    half(r.place) * 0x1_0000_0000 + directed(r) as u64
}

// The number in the high half, where no span reaches, and the place in the low one.
pub fn high(r: Refusal) -> u64
    ensures { result ≡ high_of r }
{
    r.number as u64 * 0x1_0000_0000 + half(r.place)
}

// 0 where nothing is refused, before anything is packed; else the refusal, packed.
pub fn packed_check(answer: Result<(), Refusal>) -> u64
    ensures { (a : Refusal) → (a.number ≡ 0 → a ≡ accepted) → answer ≡ checked a → result ≡ packed_of a }
{
    match answer {
        Ok(()) => 0,
        Err(r) => packed(r),
    }
}

// Invalid 0, degenerate 1, unimplemented 2, capacity 3, internal 4; 5 for what is no refusal number.
pub fn tasulogi_class_of(number: u32) -> u8
    ensures { result ≡ class_of number }
{
    class_of(number)
}

// 0 for a valid curve, else its refusal, packed.
pub fn tasulogi_curve_refusal(
    degree: usize,
    knots: &[f64],
    points: &[f64],
    rational: bool,
    weights: &[f64],
) -> u64
    ensures { result ≡ packed_of (curve_refusal degree knots.now points.now rational weights.now) }
{
    packed_check(curve_refusal(Curve {
        degree,
        knots,
        points,
        rational,
        weights,
    }))
}

// 0 for a valid surface, else its refusal, packed.
pub fn tasulogi_surface_refusal(
    p: usize,
    q: usize,
    uk: &[f64],
    vk: &[f64],
    un: usize,
    vn: usize,
    points: &[f64],
    rational: bool,
    weights: &[f64],
) -> u64
    ensures { result ≡ packed_of (surface_refusal p q uk.now vk.now un vn points.now rational weights.now) }
{
    packed_check(surface_refusal(Surface {
        u_degree: p,
        v_degree: q,
        u_knots: uk,
        v_knots: vk,
        u_count: un,
        v_count: vn,
        points,
        rational,
        weights,
    }))
}
