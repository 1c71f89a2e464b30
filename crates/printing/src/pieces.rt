// The texts that no span has: a refusal, and what stands around the boxes of a drawing.
ghost use Rattle.listing.specs.Text.{Shown};
ghost use Rattle.printing.specs.Printed.{piece_text};

use drawing::{View, head_text, middle_text, point_text, tail_text};
use knots::refusal::Refusal;
use listing::refusal_line;
use runs::points::point_at;

#[derive(Clone, Copy, Debug, PartialEq)]
pub enum Piece {
    Refusal(Refusal),
    Head(View),
    Point { x: f64, y: f64 },
    Middle,
    Tail,
}

fn piece_text(piece: Piece, out: &mut [u8; 2304]) -> usize
    ensures { Shown 2304 (piece_text piece) out.new result }
{
    match piece {
        Piece::Refusal(refusal) => refusal_line(refusal, out),
        Piece::Head(view) => head_text(view, out),
        Piece::Point { x, y } => point_text(x, y, out),
        Piece::Middle => middle_text(out),
        Piece::Tail => tail_text(out),
    }
}

pub fn print_piece(piece: Piece) {
    let mut text = [0u8; 2304];
    let n = piece_text(piece, &mut text);
    io::write_all(1, &text[..n]);
}

// A line for each control point, in order.
pub fn print_points(points: &[f64]) {
    for i in 0..points.len() / 3 {
        let p = point_at(points, i);
        print_piece(Piece::Point { x: p.x, y: p.y });
    }
}
