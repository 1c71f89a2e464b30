// A row of the coefficients of A2.3, and the derivative that it gives.
ghost use Rattle.std.specs.Prelude.{◌≡◌, ◌+◌, ◌-◌, ◌*◌, ◌<◌, ◌≤◌, length};
ghost use Rattle.doubles.specs.Run.{at};
ghost use Rattle.basis.specs.Basis.{cell};
ghost use Rattle.basis.specs.Ders.{end_of, RowDone, StartDone, MiddleDone};

use crate::signed::{first_place, shifted};

// The coefficient at place 0, where the row reaches that far.
fn row_start(r: usize, k: usize, p: usize, ndu: &[f64], from: &[f64; 3], to: &mut [f64; 3]) -> f64
    requires k_nonzero { 0 < k }
    requires k_le_p { k ≤ p }
    requires p_bound { p ≤ 64 }
    requires r_le_p { r ≤ p }
    requires to_len { length to.old ≡ 3 }
    requires k_bound { k ≤ 2 }
    requires p_in_bounds { p * 65 + p < length ndu.now }
    ensures { StartDone (cell ndu.now) p r k (at from.now) to.new result }
{
    if r < k {
        return 0.0;
    }
    let pk = p - k;
    let i = shifted(r, k, 0);
    let under = (pk + 1) * 65 + i;
    let x = from[0] / ndu[under];
    to[0] = x;
    let over = i * 65 + pk;
    x * ndu[over]
}

// The coefficients between the ends.
fn row_middle(
    r: usize,
    k: usize,
    p: usize,
    s: f64,
    ndu: &[f64],
    from: &[f64; 3],
    to: &mut [f64; 3],
) -> f64
    requires k_nonzero { 0 < k }
    requires k_le_p { k ≤ p }
    requires p_bound { p ≤ 64 }
    requires r_le_p { r ≤ p }
    requires to_len { length to.old ≡ 3 }
    requires k_bound { k ≤ 2 }
    requires p_in_bounds { p * 65 + p < length ndu.now }
    ensures { MiddleDone (cell ndu.now) p r k (at from.now) to.old to.new s result }
{
    let pk = p - k;
    let mut d = s;
    for j in first_place(r, k)..middle_end(r, k, p) {
        let i = shifted(r, k, j);
        let under = (pk + 1) * 65 + i;
        let over = i * 65 + pk;
        let x = (from[j] - from[j - 1]) / ndu[under];
        to[j] = x;
        d = d + x * ndu[over];
    }
    d
}

// One past the last place between the ends.
fn middle_end(r: usize, k: usize, p: usize) -> usize
    requires k_nonzero { 0 < k }
    requires k_le_p { k ≤ p }
    requires p_bound { p ≤ 64 }
    requires r_le_p { r ≤ p }
    ensures { result ≡ end_of p r k }
{
    if r <= p - k + 1 { k } else { p - r + 1 }
}

// A row of coefficients, and the derivative that it gives.
pub fn row(r: usize, k: usize, p: usize, ndu: &[f64], from: &[f64; 3], to: &mut [f64; 3]) -> f64
    requires k_nonzero { 0 < k }
    requires k_le_p { k ≤ p }
    requires p_bound { p ≤ 64 }
    requires r_le_p { r ≤ p }
    requires to_len { length to.old ≡ 3 }
    requires k_bound { k ≤ 2 }
    requires p_in_bounds { p * 65 + p < length ndu.now }
    ensures { RowDone (cell ndu.now) p r k (at from.now) to.new result }
{
    let s = row_start(r, k, p, ndu, from, to);
    let d = row_middle(r, k, p, s, ndu, from, to);
    let pk = p - k;
    if pk < r {
        return d;
    }
    let under = (pk + 1) * 65 + r;
    let over = r * 65 + pk;
    let before = k - 1;
    let x = -from[before] / ndu[under];
    to[k] = x;
    d + x * ndu[over]
}
