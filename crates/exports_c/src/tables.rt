// Validation of curves and surfaces, and the class of a refusal.
ghost use Rattle.std.specs.Prelude.{◌≡◌};
ghost use Rattle.knots.specs.Refusal.{class_of};
ghost use Rattle.knots.specs.Curve.{curve_refusal};
ghost use Rattle.knots.specs.Surface.{surface_refusal};
ghost use Rattle.exports.specs.Tables.{packed_of};

// Invalid 0, degenerate 1, unimplemented 2, capacity 3, internal 4; 5 for what is no refusal number.
#[unsafe(no_mangle)]
pub extern "C" fn tasulogi_class_of(number: u32) -> u8
    ensures { result ≡ class_of number }
{
    exports::tables::tasulogi_class_of(number)
}

// 0 for a valid curve, before anything is packed; else its refusal, packed.
#[unsafe(no_mangle)]
pub extern "C" fn tasulogi_curve_refusal(
    degree: usize,
    knots: &[f64],
    points: &[f64],
    rational: bool,
    weights: &[f64],
) -> u64
    ensures { result ≡ packed_of (curve_refusal degree knots.now points.now rational weights.now) }
{
    exports::tables::tasulogi_curve_refusal(degree, knots, points, rational, weights)
}

// 0 for a valid surface, else its refusal, packed.
#[unsafe(no_mangle)]
pub extern "C" fn tasulogi_surface_refusal(
    p: usize,
    q: usize,
    uk: &[f64],
    vk: &[f64],
    un: usize,
    vn: usize,
    points: &[f64],
    rational: bool,
    weights: &[f64],
) -> u64
    ensures { result ≡ packed_of (surface_refusal p q uk.now vk.now un vn points.now rational weights.now) }
{
    exports::tables::tasulogi_surface_refusal(p, q, uk, vk, un, vn, points, rational, weights)
}
