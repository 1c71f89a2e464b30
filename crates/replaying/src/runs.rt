// Runs of doubles in a list: the length, then the numbers.
ghost use Rattle.std.specs.Prelude.{◌≤◌, length};

use crate::words::{double, word};

pub fn size() -> usize {
    word() as usize
}

pub fn flag() -> bool {
    word() == 1
}

// The length of the next run, whose numbers go to the front; a length that has no room counts as 0.
fn fill(out: &mut [f64]) -> usize
    ensures { result ≤ length out.new }
{
    let n = size();
    if n > out.len() {
        return 0;
    }
    for x in out[..n].iter_mut() {
        *x = double();
    }
    n
}

// The next run, which stands in the room that is lent.
pub fn run<'a>(room: &'a mut [f64]) -> &'a mut [f64] {
    let n = fill(room);
    &mut room[..n]
}
