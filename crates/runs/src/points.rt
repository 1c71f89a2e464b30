// Points in a run of coordinates, read and stored.
ghost use Rattle.std.specs.Prelude.{◌≡◌};
ghost use Rattle.runs.specs.Coordinate.{coordinate};
ghost use Rattle.runs.specs.Point.{point_of, point_put};

use crate::numbers::number_at;
use crate::store::store_vector;
use crate::vector::Vector;

// A point that is not whole inside the run: NaN for what is outside.
fn edge_point(points: &[f64], i: usize) -> Vector
    ensures { result ≡ point_of points.now i }
{
    if i < points.len() {
        let at = i * 3;
        return Vector {
            x: number_at(points, at),
            y: number_at(points, at + 1),
            z: number_at(points, at + 2),
        };
    }
    let none = 0.0 / 0.0;
    Vector {
        x: none,
        y: none,
        z: none,
    }
}

// Point i, and NaN for a coordinate outside the run.
pub fn point_at(points: &[f64], i: usize) -> Vector
    ensures { result ≡ point_of points.now i }
{
    if i < points.len() / 3 {
        let at = i * 3;
        return Vector {
            x: points[at],
            y: points[at + 1],
            z: points[at + 2],
        };
    }
    edge_point(points, i)
}

// The coordinates of a point that are inside the run.
fn put_edge(points: &mut [f64], i: usize, v: Vector)
    ensures { points.new ≡ point_put points.old i v }
{
    if i < points.len() {
        store_vector(points, i * 3, v);
    }
}

// Point i becomes v; a coordinate outside the run is not stored.
pub fn put_point(points: &mut [f64], i: usize, v: Vector)
    ensures { points.new ≡ point_put points.old i v }
{
    if i < points.len() / 3 {
        let at = i * 3;
        points[at] = v.x;
        points[at + 1] = v.y;
        points[at + 2] = v.z;
    } else {
        put_edge(points, i, v);
    }
}

// Coordinate k of point i, and NaN outside the run.
pub fn coordinate_at(points: &[f64], i: usize, k: usize) -> f64
    ensures { result ≡ coordinate points.now i k }
{
    if i >= points.len() {
        return 0.0 / 0.0;
    }
    if k >= points.len() {
        return 0.0 / 0.0;
    }
    number_at(points, i * 3 + k)
}
