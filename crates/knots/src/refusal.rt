// A refusal, its reason and its class, and how one is made. Every call of every crate that refuses answers `Err` of this one type.
ghost use Rattle.std.specs.Prelude.{◌≡◌, ℕ};
ghost use Rattle.knots.specs.Refusal.{numbered, row, placed, along, refused_quotient, checked, class_of};
ghost use Rattle.knots.specs.declared.refusal.Refusal.{Refusal};

use interval::DivideError;

// The reasons of document 01's table.
#[derive(Clone, Copy, Debug, PartialEq, Eq)]
pub enum Reason {
    DegreeZero,
    FewPoints,
    KnotCount,
    KnotsUnordered,
    DomainEmpty,
    DomainWide,
    KnotRepeated,
    PointNotFinite,
    WeightCount,
    WeightBad,
    NetSize,
    ParameterNotFinite,
    KnotOutside,
    KnotFull,
    TrimBad,
    DegreeLowered,
    EndsUnclamped,
    ElevationHigh,
    ControlBad,
    EditBad,
    SecondNotFinite,
    IsoOutside,
    IsoWeightBad,
    RangeBad,
    RangeInNoSpan,
    DenominatorZero,
    WeightRatioLow,
    QuotientNone,
    WeightsApart,
    LengthBad,
    DegreeHigh,
    PointsUneven,
    RecordMalformed,
    ParameterOutside,
}

impl Reason {
    // The number in the table.
    pub fn number(self) -> u32
        ensures { result ≡ (row self).0 }
    {
        match self {
            Reason::DegreeZero => 1,
            Reason::FewPoints => 2,
            Reason::KnotCount => 3,
            Reason::KnotsUnordered => 4,
            Reason::DomainEmpty => 5,
            Reason::DomainWide => 6,
            Reason::KnotRepeated => 7,
            Reason::PointNotFinite => 8,
            Reason::WeightCount => 9,
            Reason::WeightBad => 10,
            Reason::NetSize => 11,
            Reason::ParameterNotFinite => 12,
            Reason::KnotOutside => 13,
            Reason::KnotFull => 14,
            Reason::TrimBad => 15,
            Reason::DegreeLowered => 16,
            Reason::EndsUnclamped => 17,
            Reason::ElevationHigh => 18,
            Reason::ControlBad => 19,
            Reason::EditBad => 20,
            Reason::SecondNotFinite => 21,
            Reason::IsoOutside => 22,
            Reason::IsoWeightBad => 23,
            Reason::RangeBad => 24,
            Reason::RangeInNoSpan => 25,
            Reason::DenominatorZero => 26,
            Reason::WeightRatioLow => 27,
            Reason::QuotientNone => 28,
            Reason::WeightsApart => 29,
            Reason::LengthBad => 30,
            Reason::DegreeHigh => 31,
            Reason::PointsUneven => 32,
            Reason::RecordMalformed => 33,
            Reason::ParameterOutside => 43,
        }
    }
}

// The number in the table of refusals; the direction of 1 to 7 of a surface: 0 for u, 1 for v, else 2; and the place of 4, 7, 8 and 10, else 0.
#[derive(Clone, Copy, Debug, PartialEq, Eq)]
pub struct Refusal {
    pub number: u32,
    pub direction: u32,
    pub place: usize,
}

// What a refusal is made of: a reason of document 01's table, or any number.
pub trait Numbered: Copy {
    ghost number_in: { Self → ℕ };

    fn refusal_number(self) -> u32
        ensures { result ≡ number_in self };
}

impl Numbered for Reason {
    ghost number_in = { λ reason. (row reason).0 };

    fn refusal_number(self) -> u32 {
        self.number()
    }
}

impl Numbered for u32 {
    ghost number_in = { λ number. number };

    fn refusal_number(self) -> u32 {
        self
    }
}

// A refusal with no direction and no place.
pub fn refuse<N: Numbered>(of: N) -> Refusal
    ensures { result ≡ numbered (N.number_in of) }
{
    Refusal {
        number: of.refusal_number(),
        direction: 2,
        place: 0,
    }
}

// A refusal with the place of what it is for: of 4 and 7 a knot, of 8 a point, of 10 a weight.
pub fn refuse_at<N: Numbered>(of: N, place: usize) -> Refusal
    ensures { result ≡ placed place (numbered (N.number_in of)) }
{
    Refusal {
        place,
        ..refuse(of)
    }
}

// Two intervals without a quotient: 26 where the divisor holds 0, else 28.
impl From<DivideError> for Refusal {
    ghost from_gives = { λ e r. r ≡ refused_quotient e };

    fn from(e: DivideError) -> Refusal {
        match e {
            DivideError::HoldsZero => refuse(Reason::DenominatorZero),
            DivideError::Unbounded => refuse(Reason::QuotientNone),
        }
    }
}

// The same refusal, of one direction of a surface.
pub fn refuse_along(direction: u32, refusal: Refusal) -> Refusal
    ensures { result ≡ along direction refusal }
{
    Refusal {
        direction,
        ..refusal
    }
}

// What a check of one direction of a surface answers.
pub(crate) fn along(direction: u32, answer: Result<(), Refusal>) -> Result<(), Refusal>
    ensures { (a : Refusal) → answer ≡ checked a → result ≡ checked (along direction a) }
{
    match answer {
        Ok(()) => Ok(()),
        Err(r) => Err(refuse_along(direction, r)),
    }
}

// Invalid 0, degenerate 1, unimplemented 2, capacity 3, internal 4; 5 at 0 and at each number that document 01's table does not have.
const CLASS: [u8; 55] = [
    5, 0, 0, 0, 0, 1, 0, 0, 0, 0, 0, 0, 0, 0, 0, 0, 0, 2, 3, 1, 1, 1, 0, 1, 0, 0, 2, 2, 1, 4, 3, 3,
    0, 0, 5, 5, 5, 5, 5, 5, 5, 5, 5, 0, 5, 5, 5, 5, 5, 5, 5, 5, 5, 5, 5,
];

// The class of a refusal number, and 5 for any other number.
pub fn class_of(number: u32) -> u8
    ensures { result ≡ class_of number }
{
    if number > 54 {
        return 5;
    }
    CLASS[number as usize]
}
