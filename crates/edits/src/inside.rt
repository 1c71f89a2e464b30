// A row by its numbers, and rows that lie whole inside their run: who calls has asked how many there are.
ghost use Rattle.std.specs.Prelude.{◌≡◌, ◌+◌, ◌*◌, ◌<◌, length};
ghost use Rattle.edits.specs.Passes.{row_of, row_by, row_put};

use crate::control::Control;

// The fourth number of a row counts where there are weights.
pub fn row_of(rational: bool, x: f64, y: f64, z: f64, w: f64) -> Control
    ensures { result ≡ row_by rational x y z w }
{
    if rational {
        return Control { x, y, z, w };
    }
    Control { x, y, z, w: 1.0 }
}

// Row i of a run.
pub fn whole_row(rational: bool, rows: &[f64], i: usize) -> Control
    requires { i * 4 + 3 < length rows.now }
    ensures { result ≡ row_of rational rows.now i }
{
    let at = i * 4;
    row_of(rational, rows[at], rows[at + 1], rows[at + 2], rows[at + 3])
}

// Row i becomes q; without weights its fourth number is left.
pub fn put_whole(rational: bool, rows: &mut [f64], i: usize, q: Control)
    requires { i * 4 + 3 < length rows.old }
    ensures { rows.new ≡ row_put rational rows.old i q }
{
    let at = i * 4;
    rows[at] = q.x;
    rows[at + 1] = q.y;
    rows[at + 2] = q.z;
    if rational {
        rows[at + 3] = q.w;
    }
}
