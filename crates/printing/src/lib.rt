// What the programs print of the table record that they are given.
#![tactic(auto)]

mod lines;
mod pieces;

use drawing::view_of;
use knots::curve::Curve;
use lines::print_spans;
use pieces::{Piece, print_piece, print_points};
use record::table;
use record::table::read_table;

// The nonempty spans, those with intervals that hold the point or its derivative, or the drawing.
#[derive(Clone, Copy, Debug, PartialEq, Eq)]
pub enum Kind {
    Spans,
    Boxes,
    Speeds,
    Drawing,
}

fn print_drawing(curve: Curve) {
    let Curve { points, .. } = curve;
    print_piece(Piece::Head(view_of(points)));
    print_points(points);
    print_piece(Piece::Middle);
    print_spans(Kind::Drawing, curve);
    print_piece(Piece::Tail);
}

fn print_curve(kind: Kind, curve: Curve) {
    match kind {
        Kind::Drawing => print_drawing(curve),
        _ => print_spans(kind, curve),
    }
}

// Runs of 8,192 numbers have room for every record, so that 30 is not met (`always-room`).
pub fn print_table(kind: Kind, s: &[u8]) {
    let mut knots = [0.0f64; 8192];
    let mut points = [0.0f64; 8192];
    let mut weights = [0.0f64; 8192];
    match read_table(s, &mut knots, &mut points, &mut weights) {
        Err(refusal) => print_piece(Piece::Refusal(refusal)),
        Ok(table::Curve { layout, rational }) => {
            let k = layout.knots;
            let n = layout.points;
            let w = layout.weights;
            print_curve(
                kind,
                Curve {
                    degree: layout.degree,
                    knots: &knots[..k],
                    points: &points[..n],
                    rational,
                    weights: &weights[..w],
                },
            );
        }
    }
}
