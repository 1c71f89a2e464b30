// Operands of interval calls: two doubles are an interval where the first is not above the second.
ghost use Rattle.std.specs.Prelude.{◌≡◌};
ghost use Rattle.interval.specs.Ops.{new_of};
ghost use Rattle.exports.specs.Intervals.{both_of};

use interval::Interval;

// Both operands, or none where one of them is no interval.
pub fn pair(al: f64, ah: f64, bl: f64, bh: f64) -> Option<(Interval, Interval)>
    ensures { result ≡ both_of (new_of al ah) (new_of bl bh) }
{
    let a = Interval::new(al, ah)?;
    let b = Interval::new(bl, bh)?;
    Some((a, b))
}
