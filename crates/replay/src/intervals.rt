// Intervals: the operands of a case, the number that the Rust answers, and the answer's words.
use interval::{Interval, Sign, float};
use knots::refusal::Refusal;
use replaying::answers;
use replaying::answers::same;
use replaying::words::{double, word};

// What stands for 'no interval', which has no refusal number.
const NO_INTERVAL: u64 = 99;

fn operand() -> Option<Interval> {
    let lo = double();
    let hi = double();
    Interval::new(lo, hi)
}

fn said(answer: bool, want: u64) -> bool {
    if answer { want == 1 } else { want == 0 }
}

fn refused(number: u64) -> bool {
    let want = word();
    word();
    word();
    want == number
}

fn ends(i: Interval, open: bool) -> bool {
    let want = word();
    let agree = answers::ends(i, open);
    want == 0 && agree
}

// A test of one double.
fn test<F: FnOnce(f64) -> bool>(of: F) -> bool
    requires { F.IsAlwaysCallable of }
{
    let x = double();
    let want = word();
    said(of(x), want)
}

// A double made of one.
fn step<F: FnOnce(f64) -> f64>(of: F) -> bool
    requires { F.IsAlwaysCallable of }
{
    let x = double();
    let want = word();
    same(of(x), want, false)
}

// One of two doubles. The sign of a zero that min, max or a hull picks from is open in the Rust.
fn extreme<F: FnOnce(f64, f64) -> f64>(of: F) -> bool
    requires { F.IsAlwaysCallable of }
{
    let a = double();
    let b = double();
    let want = word();
    same(of(a, b), want, true)
}

fn width() -> bool {
    let n = operand();
    let want = word();
    let width = word();
    match n {
        Some(a) => want == 0 && same(a.width(), width, false),
        None => want == NO_INTERVAL,
    }
}

fn contains() -> bool {
    let n = operand();
    let x = double();
    let want = word();
    match n {
        Some(a) => said(a.contains(x), want),
        None => want == NO_INTERVAL,
    }
}

fn sign_number(s: Sign) -> u64 {
    match s {
        Sign::Positive => 1,
        Sign::Negative => 2,
        Sign::Zero => 3,
        Sign::Unknown => 0,
    }
}

fn sign() -> bool {
    let n = operand();
    let want = word();
    match n {
        Some(a) => want == sign_number(a.sign()),
        None => want == NO_INTERVAL,
    }
}

// An interval made of one.
fn unary<F: FnOnce(Interval) -> Interval>(of: F) -> bool
    requires { F.IsAlwaysCallable of }
{
    match operand() {
        Some(a) => ends(of(a), false),
        None => refused(NO_INTERVAL),
    }
}

// Both operands: they are read whether the first is an interval or not.
fn operands() -> Option<(Interval, Interval)> {
    let a = operand();
    let b = operand();
    a.zip(b)
}

// An interval made of two.
fn binary<F: FnOnce(Interval, Interval) -> Interval>(open: bool, of: F) -> bool
    requires { F.IsAlwaysCallable of }
{
    match operands() {
        Some((a, b)) => ends(of(a, b), open),
        None => refused(NO_INTERVAL),
    }
}

fn quotient() -> bool {
    match operands() {
        Some((a, b)) => match interval::divide(a, b) {
            Ok(i) => ends(i, false),
            Err(e) => refused(u64::from(Refusal::from(e).number)),
        },
        None => refused(NO_INTERVAL),
    }
}

// Reads one case of a call and says whether the answer is the list's.
pub fn agrees(call: u32) -> bool {
    match call {
        0 => test(float::is_nan),
        1 => test(float::is_finite),
        2 => step(float::next_up),
        3 => step(float::next_down),
        4 => extreme(float::min),
        5 => extreme(float::max),
        6 => ends(Interval::entire(), false),
        7 => unary(|a| a),
        8 => ends(Interval::point(double()), false),
        9 => width(),
        10 => contains(),
        11 => sign(),
        12 => unary(Interval::sqr),
        13 => unary(Interval::neg),
        14 => binary(true, Interval::hull),
        15 => binary(false, Interval::add),
        16 => binary(false, Interval::sub),
        17 => binary(false, Interval::mul),
        _ => quotient(),
    }
}
