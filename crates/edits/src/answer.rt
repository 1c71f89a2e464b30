// What an edit of a curve answers where it is not refused.

// The degree and the count of points of the curve that is formed, which stands in the lent runs.
#[derive(Clone, Copy, Debug, PartialEq, Eq)]
pub struct FormedCurve {
    pub degree: usize,
    pub count: usize,
}
