// Replays the list on standard input, which holds the Rust's answers, and says for each call how many differ.
#![tactic(auto)]

mod boxes;
mod intervals;
mod points;
mod spans;
mod tables;

use replaying::answers::{cases, print};
use replaying::words::print_heading;

// How many calls there are. The list has them in the order of their numbers.
const COUNT: u32 = 36;

// Reads one case of a call and says whether the answer is the list's.
fn agrees(call: u32) -> bool {
    match call {
        0..=18 => intervals::agrees(call),
        19 | 26..=29 | 32 | 34 => tables::on_curve(call),
        21..=24 => tables::on_knots(call),
        25 => spans::class(),
        _ => tables::on_surface(call),
    }
}

// The part of the list for one call: a heading, the number of cases, the cases.
fn replay(call: u32) {
    print_heading();
    let count = cases();
    let mut differ = 0u64;
    for _ in 0..count {
        if !agrees(call) {
            differ += 1;
        }
    }
    print(count, differ);
}

fn main() {
    for call in 0..COUNT {
        replay(call);
    }
}
