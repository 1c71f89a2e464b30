// The line that a part of a span has in the drawing, at the front of a run of bytes.
ghost use Rattle.std.specs.Prelude.{◌≡◌, true, false, ◌∷◌, ◌++◌, ◌+◌, ◌≤◌, length};
ghost use Rattle.decimals.specs.Text.{decimal};
ghost use Rattle.decimals.specs.Fixed.{fixed};
ghost use Rattle.decimals.specs.Stored.{Stored};
ghost use Rattle.drawing.specs.Drawing.{label, both_finite, sides_text, path_text, unbounded_text, refused_text};

use decimals::pieces::{put_label, put_number, put_text};
use interval::Interval;
use interval::float::is_finite;

pub fn both_finite(x: Interval, y: Interval) -> bool
    ensures { result ≡ both_finite x y }
{
    is_finite(x.lo()) & is_finite(x.hi()) & is_finite(y.lo()) & is_finite(y.hi())
}

// A text and the part of a span behind it.
fn put_part(out: &mut [u8], lead: &[u8], span: usize, part: usize) -> usize
    requires { length lead.now + 41 ≤ length out.old }
    ensures stored { Stored out.old 0 ((lead.now ++ decimal span) ++ label "-" part) out.new result }
    ensures upper_bound { result ≤ length lead.now + 41 }
{
    let next = put_label(out, 0, lead, span as u64);
    put_label(out, next, b"-", part as u64)
}

// Two low numbers, rounded down, and two high ones, rounded up, each behind a text; the second behind a space.
pub fn put_corners(
    out: &mut [u8],
    at: usize,
    first: &[u8],
    third: &[u8],
    fourth: &[u8],
    left: f64,
    bottom: f64,
    right: f64,
    top: f64,
) -> usize
    requires { at + (length first.now + (length third.now + (length fourth.now + 1321))) ≤ length out.old }
    ensures stored { Stored out.old at ((first.now ++ fixed false left) ++ ((32 ∷ fixed false bottom) ++ ((third.now ++ fixed true right) ++ (fourth.now ++ fixed true top)))) out.new result }
    ensures upper_bound { result ≤ at + (length first.now + (length third.now + (length fourth.now + 1321))) }
{
    let a = put_number(out, at, first, false, left);
    let b = put_number(out, a, b" ", false, bottom);
    let c = put_number(out, b, third, true, right);
    put_number(out, c, fourth, true, top)
}

// The sides, from the lower left corner on. Low ends are rounded down and high ends up, so that the path is around the box.
fn put_sides(out: &mut [u8], at: usize, left: f64, bottom: f64, right: f64, top: f64) -> usize
    requires { at + 1700 ≤ length out.old }
    ensures stored { Stored out.old at (sides_text left bottom right top) out.new result }
    ensures upper_bound { result ≤ at + 1700 }
{
    let a = put_corners(out, at, b" d=\"M", b"H", b"V", left, bottom, right, top);
    let b = put_number(out, a, b"H", false, left);
    put_text(out, b, b"Z\"/>\n")
}

pub fn put_path(out: &mut [u8], span: usize, part: usize, x: Interval, y: Interval) -> usize
    requires { 1800 ≤ length out.old }
    ensures stored { Stored out.old 0 (path_text span part x y) out.new result }
    ensures upper_bound { result ≤ 1800 }
{
    let a = put_part(out, b"<path id=\"span", span, part);
    let b = put_text(out, a, b"\" vector-effect=\"non-scaling-stroke\"");
    put_sides(out, b, x.lo(), y.lo(), x.hi(), y.hi())
}

pub fn put_unbounded(out: &mut [u8], span: usize, part: usize) -> usize
    requires { 1800 ≤ length out.old }
    ensures stored { Stored out.old 0 (unbounded_text span part) out.new result }
    ensures upper_bound { result ≤ 1800 }
{
    let a = put_part(out, b"<!-- span ", span, part);
    put_text(out, a, b" unbounded -->\n")
}

pub fn put_refusal(out: &mut [u8], span: usize, part: usize, number: u32) -> usize
    requires { 1800 ≤ length out.old }
    ensures stored { Stored out.old 0 (refused_text span part number) out.new result }
    ensures upper_bound { result ≤ 1800 }
{
    let a = put_part(out, b"<!-- span ", span, part);
    let b = put_label(out, a, b" refused ", number as u64);
    put_text(out, b, b" -->\n")
}
