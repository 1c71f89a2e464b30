// How an exported call ends: the number it returns, and what it leaves in the lent run.
ghost use Rattle.std.specs.Prelude.{◌∷◌, []};
ghost use Rattle.interval.specs.Numbers.{ends_onto};
ghost use Rattle.exports.specs.Answer.{Leaves, refused, told, values};

use crate::tables::packed;
use interval::Interval;
use knots::clear::clear;
use knots::refusal::Refusal;

// A refusal: the number is returned, and nothing but +0.0 is left.
pub fn refuse(out: &mut [f64], number: u32) -> u32
    ensures { Leaves (refused number) out.old out.new result }
{
    clear(out);
    number
}

// The refusal of an answer, packed.
pub fn put_refusal(out: &mut [f64], r: Refusal) -> u64
    ensures { Leaves (told r []) out.old out.new result }
{
    clear(out);
    packed(r)
}

// One double, then +0.0; 30 where the run is empty.
pub fn put_one(out: &mut [f64], x: f64) -> u32
    ensures { Leaves (values (x ∷ [])) out.old out.new result }
{
    clear(out);
    if out.len() < 1 {
        return 30;
    }
    out[0] = x;
    0
}

// The two ends, low before high, then +0.0; 30 where the run has no room for both.
pub fn put(out: &mut [f64], i: Interval) -> u32
    ensures { Leaves (values (ends_onto i [])) out.old out.new result }
{
    clear(out);
    if out.len() < 2 {
        return 30;
    }
    out[0] = i.lo();
    out[1] = i.hi();
    0
}
