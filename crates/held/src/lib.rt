// A curve that holds its three runs, with methods, and beside each a function of plain runs.
#![tactic(auto)]

ghost use Rattle.std.specs.Prelude.{◌≡◌};
ghost use Rattle.knots.specs.Refusal.{checked};
ghost use Rattle.knots.specs.Curve.{count_of, curve_refusal};
ghost use Rattle.knots.specs.Span.{refusing, clamping, span_answer};
ghost use Rattle.evaluate.specs.Curve.{eval_of};
ghost use Rattle.bounds.specs.Curve.{bound_of};
ghost use Rattle.bounds.specs.Numbers.{bounded_refusal};
ghost use Rattle.bounds.specs.Holds.{Holds, NotIdle};

use bounds::answer::NurbsBounds;
use bounds::curve::bound_curve;
use evaluate::curve::{CurveDerivs, eval, eval_clamped};
use knots::curve::{Curve as Runs, curve_refusal};
use knots::refusal::Refusal;
use knots::span::{find_span, find_span_clamped};

// The fields of `knots::curve::Curve`, in its order. Weights count only where rational is true.
#[derive(Clone, Copy)]
pub struct Curve<'a> {
    pub degree: usize,
    pub knots: &'a [f64],
    pub points: &'a [f64],
    pub rational: bool,
    pub weights: &'a [f64],
}

// By value, since the struct is Copy.
impl<'a> Curve<'a> {
    pub fn refusal(self) -> Result<(), Refusal>
        ensures { result ≡ checked (curve_refusal self.entry.degree self.entry.knots.now self.entry.points.now self.entry.rational self.entry.weights.now) }
    {
        let Curve {
            degree,
            knots,
            points,
            rational,
            weights,
        } = self;
        curve_refusal(Runs {
            degree,
            knots,
            points,
            rational,
            weights,
        })
    }

    // The span of u. Of the points only their count matters.
    pub fn span(self, u: f64) -> Result<usize, Refusal>
        ensures { result ≡ span_answer refusing self.entry.degree (count_of self.entry.points.now) self.entry.knots.now u }
    {
        find_span(self.degree, self.points.len() / 3, self.knots, u)
    }

    // The same, where a finite u outside the domain becomes the nearer end.
    pub fn span_clamped(self, u: f64) -> Result<usize, Refusal>
        ensures { result ≡ span_answer clamping self.entry.degree (count_of self.entry.points.now) self.entry.knots.now u }
    {
        find_span_clamped(self.degree, self.points.len() / 3, self.knots, u)
    }

    // The point and the first derivative at t, or a refusal.
    pub fn eval(self, t: f64) -> Result<CurveDerivs, Refusal>
        ensures { result ≡ eval_of refusing self.entry.degree self.entry.knots.now self.entry.points.now self.entry.rational self.entry.weights.now t }
    {
        let Curve {
            degree,
            knots,
            points,
            rational,
            weights,
        } = self;
        eval(
            Runs {
                degree,
                knots,
                points,
                rational,
                weights,
            },
            t,
        )
    }

    // The same, where a finite t outside the domain becomes the nearer end.
    pub fn eval_clamped(self, t: f64) -> Result<CurveDerivs, Refusal>
        ensures { result ≡ eval_of clamping self.entry.degree self.entry.knots.now self.entry.points.now self.entry.rational self.entry.weights.now t }
    {
        let Curve {
            degree,
            knots,
            points,
            rational,
            weights,
        } = self;
        eval_clamped(
            Runs {
                degree,
                knots,
                points,
                rational,
                weights,
            },
            t,
        )
    }

    // The bounds over the closed range [lo, hi]: the answer, that bounds hold the exact point and derivative, and that 28 and 29 are never given.
    pub fn bound(self, lo: f64, hi: f64) -> Result<NurbsBounds, Refusal>
        ensures value { result ≡ bound_of self.entry.degree self.entry.knots.now self.entry.points.now self.entry.rational self.entry.weights.now lo hi }
        ensures holds { Holds self.entry.degree self.entry.knots.now self.entry.points.now self.entry.rational self.entry.weights.now lo hi result }
        ensures not_idle { NotIdle (bounded_refusal result).number }
    {
        let Curve {
            degree,
            knots,
            points,
            rational,
            weights,
        } = self;
        bound_curve(
            Runs {
                degree,
                knots,
                points,
                rational,
                weights,
            },
            lo,
            hi,
        )
    }
}

// What `Curve::refusal` answers, of plain runs; one lifetime for the three, as the struct has.
pub fn refusal_of<'a>(
    degree: usize,
    knots: &'a [f64],
    points: &'a [f64],
    rational: bool,
    weights: &'a [f64],
) -> Result<(), Refusal>
    ensures { result ≡ checked (curve_refusal degree knots.now points.now rational weights.now) }
{
    Curve {
        degree,
        knots,
        points,
        rational,
        weights,
    }
    .refusal()
}

// What `Curve::span` answers, of plain runs. Of the points only their count matters, and weights do not.
pub fn span_in<'a>(
    degree: usize,
    knots: &'a [f64],
    points: &'a [f64],
    rational: bool,
    weights: &'a [f64],
    u: f64,
) -> Result<usize, Refusal>
    ensures { result ≡ span_answer refusing degree (count_of points.now) knots.now u }
{
    Curve {
        degree,
        knots,
        points,
        rational,
        weights,
    }
    .span(u)
}

// The same, where a finite u outside the domain becomes the nearer end.
pub fn span_clamped_in<'a>(
    degree: usize,
    knots: &'a [f64],
    points: &'a [f64],
    rational: bool,
    weights: &'a [f64],
    u: f64,
) -> Result<usize, Refusal>
    ensures { result ≡ span_answer clamping degree (count_of points.now) knots.now u }
{
    Curve {
        degree,
        knots,
        points,
        rational,
        weights,
    }
    .span_clamped(u)
}

// What `Curve::eval` answers, of plain runs.
pub fn eval_in<'a>(
    degree: usize,
    knots: &'a [f64],
    points: &'a [f64],
    rational: bool,
    weights: &'a [f64],
    t: f64,
) -> Result<CurveDerivs, Refusal>
    ensures { result ≡ eval_of refusing degree knots.now points.now rational weights.now t }
{
    Curve {
        degree,
        knots,
        points,
        rational,
        weights,
    }
    .eval(t)
}

// The same, where a finite t outside the domain becomes the nearer end.
pub fn eval_clamped_in<'a>(
    degree: usize,
    knots: &'a [f64],
    points: &'a [f64],
    rational: bool,
    weights: &'a [f64],
    t: f64,
) -> Result<CurveDerivs, Refusal>
    ensures { result ≡ eval_of clamping degree knots.now points.now rational weights.now t }
{
    Curve {
        degree,
        knots,
        points,
        rational,
        weights,
    }
    .eval_clamped(t)
}

// What `Curve::bound` answers, of plain runs: the same three promises.
pub fn bound_in<'a>(
    degree: usize,
    knots: &'a [f64],
    points: &'a [f64],
    rational: bool,
    weights: &'a [f64],
    lo: f64,
    hi: f64,
) -> Result<NurbsBounds, Refusal>
    ensures value { result ≡ bound_of degree knots.now points.now rational weights.now lo hi }
    ensures holds { Holds degree knots.now points.now rational weights.now lo hi result }
    ensures not_idle { NotIdle (bounded_refusal result).number }
{
    Curve {
        degree,
        knots,
        points,
        rational,
        weights,
    }
    .bound(lo, hi)
}
