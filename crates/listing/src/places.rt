// The place that stands behind a refusal's number.
ghost use Rattle.std.specs.Prelude.{◌≡◌, ◌+◌, ◌≤◌, length};
ghost use Rattle.decimals.specs.Stored.{Stored};
ghost use Rattle.listing.specs.Text.{says_place, place_text};

use decimals::pieces::put_label;
use knots::refusal::Refusal;

// 4, 7, 8 and 10 alone say a place.
fn says_place(number: u32) -> bool
    ensures { result ≡ says_place number }
{
    if number == 4 {
        return true;
    }
    if number == 7 {
        return true;
    }
    if number == 8 {
        return true;
    }
    number == 10
}

// A space and the place, or nothing, from a place of the run on; what stands behind them.
pub fn put_place(out: &mut [u8], at: usize, refusal: Refusal) -> usize
    requires { at + 21 ≤ length out.old }
    ensures stored { Stored out.old at (place_text refusal) out.new result }
    ensures upper_bound { result ≤ at + 21 }
{
    if says_place(refusal.number) {
        return put_label(out, at, b" ", refusal.place as u64);
    }
    at
}
