// Answers beside those of the list.
ghost use Rattle.std.specs.Prelude.{◌≤◌};
ghost use Rattle.replaying.specs.Same.{Same, SameEnds, Judges};

use crate::words::word;
use interval::Interval;
use interval::bits::{bits_of, double_of};

// The answer is the double of the wanted pattern. A NaN is any NaN, and a zero where `either` is set has either sign.
pub fn same(x: f64, want: u64, either: bool) -> bool
    ensures { Judges (Same x want either) result }
{
    let y = double_of(want);
    if either {
        if x == 0.0 {
            return y == 0.0;
        }
    }
    bits_of(x) == bits_of(y)
}

// The interval has two patterns as its ends.
pub fn are_ends(i: Interval, lo: u64, hi: u64, either: bool) -> bool
    ensures { Judges (SameEnds i lo hi either) result }
{
    if same(i.lo(), lo, either) {
        return same(i.hi(), hi, either);
    }
    false
}

// Reads two words: the interval has them as its ends.
pub fn ends(i: Interval, either: bool) -> bool {
    let lo = word();
    let hi = word();
    are_ends(i, lo, hi, either)
}

// Reads a number, a direction and a place: the refusal has them.
pub fn refused(number: u32, direction: u32, place: usize) -> bool {
    let want = word();
    let along = word();
    let at = word();
    if u64::from(number) == want {
        if u64::from(direction) == along {
            return place as u64 == at;
        }
    }
    false
}

// Reads three words, which say that nothing is refused.
pub fn accepted() -> bool {
    refused(0, 2, 0)
}

// Writes the outcome of one call behind its heading, as `add       300 cases, 0 differ`.
pub fn print(count: u64, differ: u64) {
    io::print_decimal(1, count);
    io::write_all(1, b" cases, ");
    io::print_decimal(1, differ);
    io::write_all(1, b" differ\n");
}

// The number of cases; a number that no list has counts as 0, so that a damaged list ends at once.
pub fn cases() -> u64
    ensures { result ≤ 100000 }
{
    let n = word();
    if n > 100000 { 0 } else { n }
}
