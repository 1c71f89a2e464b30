// Lists the nonempty spans of the table record on standard input, each with intervals that hold the point, or says why the table is refused.
#![tactic(auto)]

use printing::{Kind, print_table};

// One byte more than a record may have is read, so that a longer input shows.
fn main() {
    let mut input = [0u8; 65537];
    let n = io::read_full(0, &mut input);
    print_table(Kind::Boxes, &input[..n]);
}
