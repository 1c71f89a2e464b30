// Derivatives of basis functions.
ghost use Rattle.std.specs.Prelude.{◌≡◌, ◌+◌, ◌-◌, ◌*◌, ◌<◌, ◌≤◌, length, pos};
ghost use Rattle.std.specs.Float.{binary64};
ghost use Rattle.std.specs.Float.Ieee.{of_int};
ghost use Rattle.basis.specs.Basis.{cell, left_of, right_of};
ghost use Rattle.basis.specs.Ders.{in_reach, basis_table, FunctionDers, RawDers, Scaled, DersDone};

use crate::basis::table;
use crate::row::row;
use knots::clear::clear;

// The derivatives of function r up to order n, at most 2, before their factors.
fn function_ders(r: usize, p: usize, n: usize, ndu: &[f64], ders: &mut [f64])
    requires p_nonzero { 0 < p }
    requires p_bound { p ≤ 64 }
    requires r_le_p { r ≤ p }
    requires n_bound { n ≤ 2 }
    requires ders_len { length ders.old ≡ 195 }
    requires p_in_bounds { p * 65 + p < length ndu.now }
    ensures { FunctionDers (cell ndu.now) p r n ders.old ders.new }
{
    if n == 0 {
        return;
    }
    let mut a = [0.0; 3];
    let mut b = [0.0; 3];
    a[0] = 1.0;
    let x = row(r, 1, p, ndu, &a, &mut b);
    let i = 65 + r;
    ders[i] = x;
    if n == 1 {
        return;
    }
    if p == 1 {
        return;
    }
    let y = row(r, 2, p, ndu, &b, &mut a);
    let j = 130 + r;
    ders[j] = y;
}

// The basis functions of a span and their derivatives up to order n, at most 2, before their factors.
fn raw_derivatives(
    span: usize,
    u: f64,
    p: usize,
    n: usize,
    knots: &[f64],
    ndu: &mut [f64],
    ders: &mut [f64],
)
    requires p_nonzero { 0 < p }
    requires p_bound { p ≤ 64 }
    requires p_le_span { p ≤ span }
    requires p_in_bounds { span + p < length knots.now }
    requires n_bound { n ≤ 2 }
    requires ders_len { length ders.old ≡ 195 }
    requires p_in_bounds_2 { p * 65 + p < length ndu.old }
    ensures { RawDers p n (left_of knots.now span u) (right_of knots.now span u) ders.old ders.new }
{
    table(span, u, p, knots, ndu);
    for r in 0..=p {
        let from = r * 65 + p;
        ders[r] = ndu[from];
        function_ders(r, p, n, ndu, ders);
    }
}

// Row k times f, in the first p + 1 columns.
fn scale_row(k: usize, p: usize, f: f64, ders: &mut [f64])
    requires k_bound { k ≤ 2 }
    requires p_bound { p ≤ 64 }
    requires ders_len { length ders.old ≡ 195 }
    ensures { Scaled k p f ders.old ders.new }
{
    for j in 0..=p {
        let i = k * 65 + j;
        ders[i] = ders[i] * f;
    }
}

// A degree as a double.
fn degree_as_double(p: usize) -> f64
    requires { p ≤ 64 }
    ensures { result ≡ of_int binary64 (pos p) }
{
    p as f64
}

// The basis functions of a span and their derivatives up to order n, at most 2, by a lent table.
fn derivatives_by(
    s: usize,
    u: f64,
    p: usize,
    n: usize,
    ks: &[f64],
    ndu: &mut [f64],
    ders: &mut [f64],
)
    requires p_nonzero { 0 < p }
    requires p_bound { p ≤ 64 }
    requires p_le_s { p ≤ s }
    requires p_in_bounds { s + p < length ks.now }
    requires n_bound { n ≤ 2 }
    requires ders_len { length ders.old ≡ 195 }
    requires p_in_bounds_2 { p * 65 + p < length ndu.old }
    ensures { DersDone p n (left_of ks.now s u) (right_of ks.now s u) ders.old ders.new }
{
    raw_derivatives(s, u, p, n, ks, ndu, ders);
    if n == 0 {
        return;
    }
    let f = degree_as_double(p);
    scale_row(1, p, f, ders);
    if n == 1 {
        return;
    }
    if p == 1 {
        return;
    }
    let g = f * degree_as_double(p - 1);
    scale_row(2, p, g, ders);
}

// A table of eight rows is enough for degrees up to 7, and is cheap to clear.
fn small_derivatives(span: usize, u: f64, p: usize, n: usize, knots: &[f64], ders: &mut [f64])
    requires p_nonzero { 0 < p }
    requires p_bound { p ≤ 7 }
    requires p_le_span { p ≤ span }
    requires p_in_bounds { span + p < length knots.now }
    requires n_bound { n ≤ 2 }
    requires ders_len { length ders.old ≡ 195 }
    ensures { DersDone p n (left_of knots.now span u) (right_of knots.now span u) ders.old ders.new }
{
    let mut ndu = [0.0; 520];
    derivatives_by(span, u, p, n, knots, &mut ndu, ders);
}

// Sixteen rows, for degrees up to 15.
fn middle_derivatives(span: usize, u: f64, p: usize, n: usize, knots: &[f64], ders: &mut [f64])
    requires p_nonzero { 0 < p }
    requires p_bound { p ≤ 15 }
    requires p_le_span { p ≤ span }
    requires p_in_bounds { span + p < length knots.now }
    requires n_bound { n ≤ 2 }
    requires ders_len { length ders.old ≡ 195 }
    ensures { DersDone p n (left_of knots.now span u) (right_of knots.now span u) ders.old ders.new }
{
    let mut ndu = [0.0; 1040];
    derivatives_by(span, u, p, n, knots, &mut ndu, ders);
}

// Every row, for degrees up to 64.
fn large_derivatives(span: usize, u: f64, p: usize, n: usize, knots: &[f64], ders: &mut [f64])
    requires p_nonzero { 0 < p }
    requires p_bound { p ≤ 64 }
    requires p_le_span { p ≤ span }
    requires p_in_bounds { span + p < length knots.now }
    requires n_bound { n ≤ 2 }
    requires ders_len { length ders.old ≡ 195 }
    ensures { DersDone p n (left_of knots.now span u) (right_of knots.now span u) ders.old ders.new }
{
    let mut ndu = [0.0; 4225];
    derivatives_by(span, u, p, n, knots, &mut ndu, ders);
}

// The tests that keep the step inside its runs. No sum is formed that could wrap.
fn in_reach(m: usize, p: usize, n: usize, knots: &[f64], span: usize) -> bool
    ensures { result ≡ in_reach m p n knots.now span }
{
    if p == 0 {
        return false;
    }
    if p > 64 {
        return false;
    }
    if n > 2 {
        return false;
    }
    if span < p {
        return false;
    }
    if knots.len() <= span {
        return false;
    }
    if knots.len() - span <= p {
        return false;
    }
    m == 195
}

// The basis functions of a span and their derivatives up to order n, at most 2, into a run of three rows of 65 numbers.
// On any other input the run is +0.0.
pub fn basis_derivatives(span: usize, u: f64, p: usize, n: usize, knots: &[f64], ders: &mut [f64])
    ensures { ders.new ≡ basis_table (length ders.old) p n knots.now span u }
{
    let room = ders.len();
    clear(ders);
    if !in_reach(room, p, n, knots, span) {
        return;
    }
    if p <= 7 {
        small_derivatives(span, u, p, n, knots, ders);
        return;
    }
    if p <= 15 {
        middle_derivatives(span, u, p, n, knots, ders);
        return;
    }
    large_derivatives(span, u, p, n, knots, ders);
}
