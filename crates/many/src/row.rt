// What is stored of one parameter's answer.
ghost use Rattle.std.specs.Prelude.{◌≡◌};
ghost use Rattle.many.specs.Points.{width as width_of, no_row, point_row, point_row2};

use crate::store::origin;
use evaluate::curve::CurveDerivs;
use evaluate::curve2::CurveDerivs2;
use knots::refusal::Refusal;
use runs::vector::Vector;

// The number of its refusal or 0, then the point and the derivatives. Where one is asked for, d2 is not stored.
#[derive(Clone, Copy)]
pub struct PointRow {
    pub number: u32,
    pub point: Vector,
    pub d1: Vector,
    pub d2: Vector,
}

// How many numbers a row has.
pub fn width(two: bool) -> usize
    ensures { result ≡ width_of two }
{
    if two {
        return 9;
    }
    6
}

pub fn no_row(r: Refusal) -> PointRow
    ensures { result ≡ no_row r }
{
    PointRow {
        number: r.number,
        point: origin(),
        d1: origin(),
        d2: origin(),
    }
}

pub fn row_of(a: Result<CurveDerivs, Refusal>) -> PointRow
    ensures { result ≡ point_row a }
{
    match a {
        Ok(CurveDerivs { point, d1 }) => PointRow {
            number: 0,
            point,
            d1,
            d2: origin(),
        },
        Err(r) => no_row(r),
    }
}

pub fn row2_of(a: Result<CurveDerivs2, Refusal>) -> PointRow
    ensures { result ≡ point_row2 a }
{
    match a {
        Ok(CurveDerivs2 { point, d1, d2 }) => PointRow {
            number: 0,
            point,
            d1,
            d2,
        },
        Err(r) => no_row(r),
    }
}
