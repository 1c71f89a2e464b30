// A Bezier segment in a run, four numbers a control, is raised in place.
ghost use Rattle.std.specs.Prelude.{◌≡◌, ◌+◌, ◌-◌, ◌*◌, ◌<◌, ◌≤◌, length, pos};
ghost use Rattle.std.specs.Float.{binary64};
ghost use Rattle.std.specs.Float.Ieee.{of_int};
ghost use Rattle.elevation.specs.Raise.{raise_share, raise_once, raise_times};
ghost use Rattle.elevation.specs.Passes.{control_in, RowsAre};

use edits::control::{Control, blend_of};
use edits::rows::{put_row, row_at};

// A degree as a double.
fn as_double(i: usize) -> f64
    requires { i ≤ 65 }
    ensures { result ≡ of_int binary64 (pos i) }
{
    i as f64
}

// i / (d + 1)
fn raise_share(d: usize, i: usize) -> f64
    requires { (d < 64) × (i ≤ d) }
    ensures { result ≡ raise_share d i }
{
    as_double(i) / as_double(d + 1)
}

// Control i of the raised segment, between its ends.
fn raise_at(d: usize, i: usize, rows: &[f64]) -> Control
    requires d_bound { (d < 64) × (0 < i) × (i ≤ d) }
    requires i_in_bounds { i * 4 + 3 < length rows.now }
    ensures { result ≡ raise_once d (control_in rows.now) i }
{
    let s = raise_share(d, i);
    let before = row_at(true, rows, i - 1);
    blend_of(row_at(true, rows, i), before, s)
}

// From degree d to d + 1, places downward: each control needs itself and the one before it.
fn raise_once(d: usize, rows: &mut [f64])
    requires d_bound { d < 64 }
    requires d_in_bounds { d * 4 + 7 < length rows.old }
    ensures { RowsAre (raise_once d (control_in rows.old)) (d + 2) (length rows.old) rows.new }
{
    let end = row_at(true, rows, d);
    for i in (1..=d).rev() {
        let q = raise_at(d, i, rows);
        put_row(true, rows, i, q);
    }
    put_row(true, rows, d + 1, end);
}

// From degree p to e.
pub fn raise_rows(p: usize, e: usize, rows: &mut [f64])
    requires p_le_e { (p ≤ e) × (e ≤ 64) }
    requires e_in_bounds { e * 4 + 3 < length rows.old }
    ensures { RowsAre (raise_times p (e - p) (control_in rows.old)) (e + 1) (length rows.old) rows.new }
{
    for d in p..e {
        raise_once(d, rows);
    }
}
