// What every line of a span starts with.
ghost use Rattle.std.specs.Prelude.{◌++◌, ◌≤◌, length};
ghost use Rattle.decimals.specs.Text.{decimal, spaced_bits};
ghost use Rattle.decimals.specs.Stored.{Stored};

use decimals::pieces::{put_bits, put_label};

// The index and two knots, at the front of a run; the place behind them.
pub fn put_start(out: &mut [u8], span: usize, lower: f64, upper: f64) -> usize
    requires { 54 ≤ length out.old }
    ensures stored { Stored out.old 0 (decimal span ++ (spaced_bits lower ++ spaced_bits upper)) out.new result }
    ensures upper_bound { result ≤ 54 }
{
    let a = put_label(out, 0, b"", span as u64);
    let b = put_bits(out, a, lower);
    put_bits(out, b, upper)
}
