// Rows of a lent run, four numbers each: a point and its weight, or a control in homogeneous form. Without weights the fourth number of a row is not touched.
ghost use Rattle.std.specs.Prelude.{◌≡◌, ◌+◌, ◌*◌, ◌<◌, ◌≤◌, length};
ghost use Rattle.doubles.specs.Run.{at};
ghost use Rattle.doubles.specs.Value.{zero+};
ghost use Rattle.knots.specs.Refusal.{checked};
ghost use Rattle.runs.specs.Larger.{largest_from};
ghost use Rattle.edits.specs.Rows.{lift_at};
ghost use Rattle.edits.specs.Work.{points_from, weights_from, scale_in, lift_refusal, lifted_run};
ghost use Rattle.edits.specs.Control.{vector_of};
ghost use Rattle.edits.specs.Passes.{row_of, row_put, lift_row, kept_row, LiftDone};

use crate::control::{Control, is_lifted, lift_of};
use crate::inside::{put_whole, row_of, whole_row};
use knots::clear::clear;
use knots::refusal::{Reason, Refusal, refuse};
use runs::larger::larger_of;
use runs::numbers::number_at;
use runs::vector::Vector;

// A row that is not whole inside the run: NaN for what is outside.
fn edge_row(rational: bool, rows: &[f64], i: usize) -> Control
    ensures { result ≡ row_of rational rows.now i }
{
    if i < rows.len() {
        let at = i * 4;
        let w = number_at(rows, at + 3);
        let x = number_at(rows, at);
        let y = number_at(rows, at + 1);
        return row_of(rational, x, y, number_at(rows, at + 2), w);
    }
    let none = 0.0 / 0.0;
    row_of(rational, none, none, none, none)
}

// Row i of a run, and NaN for a number outside it.
pub fn row_at(rational: bool, rows: &[f64], i: usize) -> Control
    ensures { result ≡ row_of rational rows.now i }
{
    if i < rows.len() / 4 {
        return whole_row(rational, rows, i);
    }
    edge_row(rational, rows, i)
}

// Row i becomes q; without weights its fourth number is left, and where it is not whole inside the run nothing is stored.
pub fn put_row(rational: bool, rows: &mut [f64], i: usize, q: Control)
    ensures { rows.new ≡ row_put rational rows.old i q }
{
    if i >= rows.len() / 4 {
        return;
    }
    put_whole(rational, rows, i, q);
}

// The point of a row.
pub fn vector_of(q: Control) -> Vector
    ensures { result ≡ vector_of q }
{
    Vector {
        x: q.x,
        y: q.y,
        z: q.z,
    }
}

// The largest weight of n rows, and +0.0 where there is none. Weights over it neither overflow nor vanish together.
fn largest_weight(n: usize, rows: &[f64]) -> f64
    requires { n * 4 ≤ length rows.now }
    ensures { result ≡ largest_from zero+ (λ i. at rows.now (i * 4 + 3)) n }
{
    let mut a = 0.0;
    for i in 0..n {
        let at = i * 4 + 3;
        a = larger_of(a, rows[at]);
    }
    a
}

// What the weights of n rows are divided by.
pub fn scale_in(n: usize, rational: bool, rows: &[f64]) -> f64
    ensures { result ≡ scale_in n rational rows.now }
{
    if n > rows.len() / 4 {
        return 1.0;
    }
    if rational {
        return largest_weight(n, rows);
    }
    1.0
}

// A row's control, relative to o, its weight over the scale.
fn lift_row(scale: f64, o: Vector, rational: bool, q: Control) -> Control
    ensures { result ≡ lift_row scale o rational q }
{
    if rational {
        return lift_of(o, vector_of(q), q.w / scale);
    }
    lift_of(o, vector_of(q), 1.0)
}

// n rows become controls, up to the first that refusal 19 is for; false where there is one.
fn lift_rows(n: usize, o: Vector, scale: f64, rational: bool, rows: &mut [f64]) -> bool
    requires { n * 4 ≤ length rows.old }
    ensures { LiftDone rational (lift_at scale o (points_from n rows.old) rational (weights_from rational n rows.old)) n rows.old rows.new result }
{
    for i in 0..n {
        let q = lift_row(scale, o, rational, whole_row(rational, rows, i));
        if !is_lifted(q) {
            return false;
        }
        put_whole(rational, rows, i, q);
    }
    true
}

// The rows of n points become controls, all weights over the scale: 30, 19. A refusal leaves +0.0 alone.
pub fn lift_in(n: usize, scale: f64, rational: bool, work: &mut [f64]) -> Result<(), Refusal>
    ensures value { result ≡ checked (lift_refusal scale n rational work.old) }
    ensures work_after { work.new ≡ lifted_run scale n rational work.old }
{
    if n > work.len() / 4 {
        clear(work);
        return Err(refuse(Reason::LengthBad));
    }
    if n == 0 {
        return Ok(());
    }
    let o = vector_of(row_at(rational, work, 0));
    if !lift_rows(n, o, scale, rational, work) {
        clear(work);
        return Err(refuse(Reason::ControlBad));
    }
    Ok(())
}

// A point and a weight as a row.
pub fn kept_row(v: Vector, w: f64) -> Control
    ensures { result ≡ kept_row v w }
{
    Control {
        x: v.x,
        y: v.y,
        z: v.z,
        w,
    }
}
